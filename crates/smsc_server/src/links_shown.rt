//! The links that are up, as a status page shows them.
use sms_base::Msisdn;
use smsc_observer::{SEATS, SeatTable};
use smsc_service::LinkBoard;
use smsc_status::LinkLine;
use std::alloc::{AllocError, Global};

fn digits_text(alloc: Global, number: &Msisdn) -> Result<String, AllocError> {
    let mut text = String::new(alloc);
    let digits = number.digits();
    for digit in digits.as_slice() {
        text.push(*digit)?;
    }
    Ok(text)
}

/// The links that are up, as the keeper saw them last.
pub fn link_lines(
    alloc: Global,
    table: &SeatTable,
    board: &LinkBoard,
) -> Result<Vec<LinkLine>, AllocError> {
    let mut links = Vec::new(alloc);
    for seat in 0..SEATS {
        if let Some((handset, since)) = table.link_at(seat) {
            if let Some(figures) = board.at(seat) {
                links.push(LinkLine {
                    seat,
                    handset: digits_text(alloc, &handset)?,
                    since,
                    waiting: figures.waiting as u64,
                    is_full: figures.is_full,
                    is_under_way: figures.is_under_way,
                })?;
            }
        }
    }
    Ok(links)
}
