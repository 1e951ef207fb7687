//! Whether a store is one of a kind and version, by the rows of its meta table.
ghost use Rattle.std.specs.Prelude.{◌≡◌, ◌<◌, ℕ, [], ◌∷◌, List, Some, length, map};
ghost use Rattle.sqlite.specs.declared.types.Value.TheVariants.{Text};
ghost use Rattle.sqlite_value.specs.Order.{column};
ghost use Rattle.sms_store_sql.specs.declared.listing.meta.Meta.{Meta as MetaOf};
ghost use Rattle.sms_store_sql.specs.declared.listing.meta.StoreKind.{StoreKind as KindOf};
ghost use Rattle.sms_store_sql.specs.listing.Columns.{number};
ghost use Rattle.sms_store_sql.specs.listing.Meta.{kind_word, meta_columns};
ghost use Rattle.sms_store_sql.specs.schema.Judged.{judged};

use crate::listing::meta::StoreKind;
use sms_rows::keep::KeepError;
use sqlite::Row;
use sqlite::types::ValueRef;

fn version_of(row: &Row) -> Option<u64>
    ensures { (version : ℕ) → 0 < length row.now → column row.now 0 ≡ number version → result ≡ Some version }
{
    match row.get_ref(0) {
        Ok(ValueRef::Int(version)) => u64::try_from(version).ok(),
        _ => None,
    }
}

fn kind_named(word: &[u8]) -> Option<StoreKind>
    ensures { (kind : KindOf) → word.now ≡ kind_word kind → result ≡ Some kind }
{
    if word == "handset".as_bytes() {
        return Some(StoreKind::Handset);
    }
    if word == "centre".as_bytes() {
        return Some(StoreKind::Centre);
    }
    None
}

fn kind_of(row: &Row) -> Option<StoreKind>
    ensures { (kind : KindOf) → 1 < length row.now → column row.now 1 ≡ Text (kind_word kind) → result ≡ Some kind }
{
    match row.get_ref(1) {
        Ok(ValueRef::Text(word)) => kind_named(word),
        _ => None,
    }
}

fn judge_row(row: &Row, kind: StoreKind, version: u32) -> Result<(), KeepError>
    ensures { (meta : MetaOf) → row.now ≡ meta_columns meta → result ≡ judged kind version (meta ∷ []) }
{
    let (Some(named), Some(found)) = (kind_of(row), version_of(row)) else {
        return Err(KeepError::NotThisStore);
    };
    if named != kind || found > u64::from(version) {
        return Err(KeepError::NotThisStore);
    }
    if found < u64::from(version) {
        return Err(KeepError::OldVersion);
    }
    Ok(())
}

/// Whether a store whose meta table has these rows is one of that kind and version. A store of this kind is refused as
/// an earlier one where its version is below. Every other is no such store, one whose rows say nothing among them.
pub fn judge(rows: &[Row], kind: StoreKind, version: u32) -> Result<(), KeepError>
    ensures { (said : List MetaOf) → rows.now ≡ map meta_columns said → result ≡ judged kind version said }
{
    let [row] = rows else {
        return Err(KeepError::NotThisStore);
    };
    judge_row(row, kind, version)
}
