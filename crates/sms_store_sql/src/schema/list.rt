//! A table from one list of its columns.

/// The `StoredTable` of a list: its name, the number of its tree, the columns of its key, and all columns as SQL declares
/// them. A column without `NOT NULL` may hold NULL. There are 1 or 2 columns in a key, and at most 15 in all.
#[macro_export]
macro_rules! table {
    ($name:ident in $tree:tt, key $first:ident, $($columns:tt)+) => {
        $crate::table!(@next [$name] $tree [1] [stringify!($first)] [stringify!($first), " = ?1"] [] [] [] [] [] ""
            ["?1" "?2" "?3" "?4" "?5" "?6" "?7" "?8" "?9" "?10" "?11" "?12" "?13" "?14" "?15"] $($columns)+)
    };
    ($name:ident in $tree:tt, key $first:ident $second:ident, $($columns:tt)+) => {
        $crate::table!(@next [$name] $tree [1, 2] [stringify!($first), ", ", stringify!($second)]
            [stringify!($first), " = ?1 AND ", stringify!($second), " = ?2"] [] [] [] [] [] ""
            ["?1" "?2" "?3" "?4" "?5" "?6" "?7" "?8" "?9" "?10" "?11" "?12" "?13" "?14" "?15"] $($columns)+)
    };
    // One column more: how it is planned, declared, named, set and given.
    (@next $name:tt $tree:tt $places:tt $key:tt $wanted:tt [$($planned:tt)*] [$($declared:tt)*] [$($named:tt)*] [$($set:tt)*] [$($given:tt)*]
        $comma:tt [$at:tt $($ats:tt)*] $column:ident $kind:ident NOT NULL, $($more:tt)*) => {
        $crate::table!(@next $name $tree $places $key $wanted
            [$($planned)* $crate::table!(@column $column $kind false),]
            [$($declared)* $comma, stringify!($column), " ", stringify!($kind), " NOT NULL",]
            [$($named)* $comma, stringify!($column),] [$($set)* $comma, stringify!($column), " = ", $at,] [$($given)* $comma, $at,]
            ", " [$($ats)*] $($more)*)
    };
    (@next $name:tt $tree:tt $places:tt $key:tt $wanted:tt [$($planned:tt)*] [$($declared:tt)*] [$($named:tt)*] [$($set:tt)*] [$($given:tt)*]
        $comma:tt [$at:tt $($ats:tt)*] $column:ident $kind:ident, $($more:tt)*) => {
        $crate::table!(@next $name $tree $places $key $wanted
            [$($planned)* $crate::table!(@column $column $kind true),]
            [$($declared)* $comma, stringify!($column), " ", stringify!($kind),]
            [$($named)* $comma, stringify!($column),] [$($set)* $comma, stringify!($column), " = ", $at,] [$($given)* $comma, $at,]
            ", " [$($ats)*] $($more)*)
    };
    // No column is left.
    (@next [$name:ident] $tree:tt [$($place:tt),+] [$($key:tt)+] [$($wanted:tt)+] [$($planned:tt)+] [$($declared:tt)+] [$($named:tt)+]
        [$($set:tt)+] [$($given:tt)+] $comma:tt $ats:tt) => {
        $crate::schema::StoredTable {
            name: stringify!($name),
            tree: $tree,
            columns: &[$($planned)+],
            key: &[$($place),+],
            index: $crate::schema::IndexPlan {
                name: concat!("sqlite_autoindex_", stringify!($name), "_1"),
                tree: $tree + 1,
                table: $tree,
                columns: &[$($place),+],
                is_unique: true,
            },
            create: concat!("CREATE TABLE ", stringify!($name), " (", $($declared)+ ", UNIQUE (", $($key)+, ")) STRICT"),
            delete: concat!("DELETE FROM ", stringify!($name), " WHERE ", $($wanted)+),
            update: concat!("UPDATE ", stringify!($name), " SET ", $($set)+ " WHERE ", $($wanted)+),
            insert: concat!("INSERT INTO ", stringify!($name), " (", $($named)+ ") VALUES (", $($given)+ ")"),
            select: concat!("SELECT ", $($named)+ " FROM ", stringify!($name)),
        }
    };
    (@column $column:ident INTEGER $is_optional:tt) => {
        $crate::schema::ColumnPlan { name: stringify!($column), kind: $crate::schema::Kind::Integer, is_optional: $is_optional }
    };
    (@column $column:ident TEXT $is_optional:tt) => {
        $crate::schema::ColumnPlan { name: stringify!($column), kind: $crate::schema::Kind::Text, is_optional: $is_optional }
    };
    (@column $column:ident BLOB $is_optional:tt) => {
        $crate::schema::ColumnPlan { name: stringify!($column), kind: $crate::schema::Kind::Blob, is_optional: $is_optional }
    };
}
