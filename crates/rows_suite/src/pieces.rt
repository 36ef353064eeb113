//! Lines that are made of pieces, since no line of JSON can have them, or since they are long.
use serve::{Json, JsonValue};
use std::io;

/// Puts the line that is made of a list of pieces: texts, bytes by their numbers, and lists of a count and a text that stands so many times.
pub fn put_pieces(line: &mut Vec<u8>, pieces: &Json<'_>) -> io::Result<()> {
    let Some(pieces) = pieces.items() else {
        return Ok(());
    };
    for piece in pieces {
        put_piece(line, piece)?;
    }
    Ok(())
}

fn put_piece(line: &mut Vec<u8>, piece: &Json<'_>) -> io::Result<()> {
    if let Some(text) = piece.text() {
        line.extend_from_slice(text.as_bytes())?;
    }
    if let Some(number) = piece.natural() {
        line.push(u8::try_from(number).unwrap_or(0))?;
    }
    if let Some([count, text]) = piece.items() {
        put_times(
            line,
            count.natural().unwrap_or(0),
            text.text().unwrap_or(""),
        )?;
    }
    Ok(())
}

fn put_times(line: &mut Vec<u8>, count: u64, text: &str) -> io::Result<()> {
    for _ in 0..count {
        line.extend_from_slice(text.as_bytes())?;
    }
    Ok(())
}
