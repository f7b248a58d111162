//! Texts of two bytes, with a text after them.

use crate::scanned::{file_names, show_line};
use phases::{PpToken, scan};
use srcset::Names;
use test_rows::{Answer, Fields};

/// Writes the spelling of a token as the first (`a`), the second (`b`) or both (`ab`) of the text's bytes, if it is that.
fn show_spelling(text: &[u8], spelling: &[u8], answer: &mut Answer) {
    if Some(spelling) == text.get(0..2) {
        answer.write(b"ab");
    } else if Some(spelling) == text.get(0..1) {
        answer.write(b"a");
    } else if Some(spelling) == text.get(1..2) {
        answer.write(b"b");
    } else {
        answer.field(spelling);
    }
}

fn show_token(text: &[u8], token: &PpToken<'_>, answer: &mut Answer) {
    show_spelling(text, token.spelling(), answer);
    answer.write(b":");
    answer.debug(&token.kind());
    answer.write(b":");
    answer.show(&token.pos().line);
    answer.write(b":");
    answer.show(&token.space_before());
    answer.write(b" ");
}

/// The lines of a text's tokens, or the line of its fault.
fn shape(names: &Names, text: &[u8], answer: &mut Answer) {
    if text.len() > 8 {
        return;
    }
    match scan(answer.alloc(), text, 0, names) {
        Ok(lines) => {
            for index in 0..lines.len() {
                for token in lines.get(index).unwrap_or(&[]) {
                    show_token(text, token, answer);
                }
                answer.write(b"|");
            }
        }
        Err(fault) => show_line(&fault, answer),
    }
}

/// `twos FIRST BEHIND`: the results of the texts that begin with a byte. Consecutive second bytes whose texts have the same result
/// are printed once.
pub fn twos(row: &Fields, answer: &mut Answer) {
    let names = file_names(answer.alloc());
    let mut before = Answer::new(answer.alloc());
    for second in 0..=255_u8 {
        let mut text = Answer::new(answer.alloc());
        text.write(&[row.letter(1), second]);
        text.write(row.field(2));
        let text = text.text().unwrap_or(b"");
        let mut found = Answer::new(answer.alloc());
        shape(&names, text, &mut found);
        if found.text() != before.text() {
            answer.field(text);
            answer.write(b" ");
            answer.write(found.text().unwrap_or(b""));
            answer.write(b"\t");
        }
        before = found;
    }
}
