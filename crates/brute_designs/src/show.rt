// Printing a case in which the product and the second way disagree.
use crate::compare::Answer;
use crate::images::Bits;
use crate::plain;
use crate::plain::Plain;
use crate::tally::{What, item};

// Prints what was compared, what the product answered and what the second way finds.
pub fn disagreement(what: What, found: Answer, expected: Answer) {
    io::write_all(1, b"DISAGREEMENT, ");
    io::write_all(1, what.name());
    io::write_all(1, b"\n  FOUND");
    answer(found);
    io::write_all(1, b"  EXPECTED");
    answer(expected);
}

// Prints the numbers of an answer.
fn answer(a: Answer) {
    item(b" ", usize::from(a.refused.unwrap_or(0)));
    for number in a.told {
        item(b" ", number);
    }
    if let Some(number) = a.unmeasured {
        item(b" NO LENGTH ", usize::from(number));
    }
    if let Some(place) = a.wrong {
        item(b" WRONG AT ", place);
    }
    io::write_all(1, b"\n");
}

// Prints the numbers of a design that are in use: version, sizes, kind and nets of each cell, nets of flip-flops and outputs.
pub fn numbers(list: &Plain) {
    io::write_all(1, b"  DESIGN");
    for place in 0..plain::NUMBERS {
        if list.width(place) != 0 {
            item(b" ", list.at(place));
        }
    }
    io::write_all(1, b"\n");
}

// Prints the first bytes of an image.
pub fn bytes(bytes: &[u8]) {
    io::write_all(1, b"  IMAGE");
    for byte in bytes {
        io::write_all(1, b" ");
        io::print_hex(1, u64::from(*byte), 2);
    }
    io::write_all(1, b"\n");
}
