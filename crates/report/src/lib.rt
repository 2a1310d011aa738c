// The text that the program `align` prints, as bytes in a lent slice. What is printed is a function of the numbers, lists
// and tables that it is given; who computes these stands above. Each call hands back how many bytes the text has.
#![tactic(auto)]

mod lines;
mod steps;

ghost use Rattle.std.specs.Prelude.{◌+◌, ◌*◌, ◌≤◌, length};
ghost use Rattle.machine.specs.Meaning.Tables.{tables_in};
ghost use Rattle.pieces.specs.Meaning.Pieces.{Printed};
ghost use Rattle.report.specs.Meaning.Text.{refusal_text, same_text, apart_in};
ghost use Rattle.report.specs.Working.Tracing.{Small};

use machine::{Pair, TablesRef};
use pieces::Text;

// What is printed in front of a verdict.
#[derive(Clone, Copy)]
pub struct Facts {
    pub inputs: usize,
    pub outputs: usize,
    pub old_latches: usize,
    pub new_latches: usize,
    pub pairs: usize,
    pub alike: usize,
    pub alignable: usize,
}

// Whose fault it is.
#[derive(Clone, Copy)]
pub enum Side {
    Old,
    New,
    Both,
}

// A refusal: its number, and nothing else.
pub fn put_refusal(who: Side, number: u8, text: &mut [u8]) -> usize
    requires { 40 ≤ length text.old }
    ensures { Printed (refusal_text who number) text.new result }
{
    let n = usize::from(number);
    match who {
        Side::Old => pieces::put_line(b"REFUSED OLD ", n, text),
        Side::New => pieces::put_line(b"REFUSED NEW ", n, text),
        Side::Both => pieces::put_line(b"REFUSED BOTH ", n, text),
    }
}

// Same, with the vectors of its list.
pub fn put_same(facts: Facts, list: &[u8], text: &mut [u8]) -> usize
    requires { 400 + 12 * length list.now ≤ length text.old }
    ensures { Printed (same_text facts list.now) text.new result }
{
    let mut text = Text::new(text);
    lines::put_head(facts, &mut text);
    text.put_last_field(b"SAME ", list.len());
    lines::put_vectors(list, &mut text);
    text.end
}

// Apart, with the pair p and the vectors of its trace.
pub fn put_apart(
    tables: &TablesRef<'_>,
    facts: Facts,
    p: Pair,
    list: &[u8],
    text: &mut [u8],
) -> usize
    requires small { Small tables.now.sizes p }
    requires room { 400 + 12 * length list.now ≤ length text.old }
    ensures { Printed (apart_in (tables_in tables.now) facts p list.now) text.new result }
{
    let mut text = Text::new(text);
    lines::put_head(facts, &mut text);
    lines::put_pair(p, list.len(), &mut text);
    steps::put_steps(tables, p, list, &mut text);
    text.end
}
