//! Texts with a mark where a fault stands, and texts of pieces. The mark `@` is no part of the text.

use ep_base::Place;
use std::alloc::{AllocError, Global};

/// A text, with the place of its mark, and how many bytes stand in front of it.
#[derive(Drop)]
pub struct Marked {
    pub text: Vec<u8>,
    pub place: Place,
    pub before: usize,
}

/// The place behind a byte.
fn behind(place: Place, byte: u8) -> Place {
    if byte == b'\n' {
        return Place {
            line: place.line.saturating_add(1),
            column: 1,
        };
    }
    Place {
        line: place.line,
        column: place.column.saturating_add(1),
    }
}

/// A row without its mark behind some lines, of which there are so many.
pub fn without_mark(
    alloc: Global,
    front: &[u8],
    lines: u64,
    row: &[u8],
) -> Result<Marked, AllocError> {
    let mut text = Vec::from_slice(alloc, front)?;
    let mut now = Place {
        line: lines.saturating_add(1),
        column: 1,
    };
    let mut place = Place { line: 0, column: 0 };
    let mut before = 0;
    for byte in row {
        if *byte == b'@' {
            place = now;
            before = text.len();
        } else {
            now = behind(now, *byte);
            text.push(*byte)?;
        }
    }
    Ok(Marked {
        text,
        place,
        before,
    })
}

/// Adds a piece so many times. A `^` in it ends a line.
fn add(text: &mut Vec<u8>, piece: &str, times: u64) -> Result<(), AllocError> {
    for _ in 0..times {
        for byte in piece.as_bytes() {
            text.push(if *byte == b'^' { b'\n' } else { *byte })?;
        }
    }
    Ok(())
}

/// The text of a row: pieces that are parted by `~`, each behind the number of times that it stands there.
pub fn of_pieces(alloc: Global, row: &str) -> Result<Vec<u8>, AllocError> {
    let mut text = Vec::new(alloc);
    let mut times = 1;
    let mut is_piece = false;
    for part in row.split('~') {
        if is_piece {
            add(&mut text, part, times)?;
        } else {
            times = part.parse::<u64>().unwrap_or(0);
        }
        is_piece = !is_piece;
    }
    Ok(text)
}
