// What the program `align` does with its input, and what is done under any panel: both images are read, the designs compared, and the
// answer written as text. Each answer is taken apart before anything is written, so that nothing else stands beside a refusal. Tables
// and scratch are held here, for designs at every limit.
#![tactic(auto)]

ghost use Rattle.machine.specs.Meaning.Lent.{lent_in};
ghost use Rattle.memory.specs.Meaning.Tables.{held_in, lengths_of};
ghost use Rattle.std.specs.Prelude.{◌≡◌, ◌+◌, ◌*◌, ◌≤◌, [], length, IfErr};
ghost use Rattle.memory.specs.Meaning.Refusals.{number_of};
ghost use Rattle.memory.specs.Meaning.Slices.{Zero};
ghost use Rattle.netlist.specs.Meaning.Faults.{Accepted};
ghost use Rattle.machine.specs.Meaning.Tables.{Ok};
ghost use Rattle.verdict.specs.Meaning.Decision.{CountsPairs};
ghost use Rattle.compare.specs.Meaning.Designs.{machine_of, sizes_of};
ghost use Rattle.compare.specs.Meaning.Comparing.{tables_lent_of};
ghost use Rattle.streams.specs.Meaning.Input.{Within};
ghost use Rattle.pieces.specs.Meaning.Pieces.{Printed};
ghost use Rattle.report.specs.Meaning.Text.{refusal_text};
ghost use Rattle.streams.specs.Meaning.Output.{Sends};
ghost use Rattle.align_report.specs.Meaning.Report.{FactsOf, Reports, own_tables, own_slices, Outputs, most_read, unread_message};
ghost use Rattle.align_report.specs.Working.Tabled.{ReportsDesigns};

use limits::Image;
use machine::{Sizes, TablesRef};
use memory::{Refusal, Scratch, TableMut};
use netlist::Design;
use report::{Facts, Side};
use streams::{Output, STDOUT};
use verdict::{Judged, Verdict};

// Entries of the tables of the largest design, and pairs of two such designs.
const ENTRIES: usize = 1 << (Image::MOST_LATCHES + Image::MOST_INPUTS);

const PAIRS: usize = 1 << (Image::MOST_LATCHES + Image::MOST_LATCHES);

// The most steps of a list.
const STEPS: usize = 32768;

// Puts what the program writes of its room into a text: what it prints of what was read, or the words that nothing could be read.
pub fn answer(room: &[u8], input: Option<usize>, text: &mut [u8]) -> Output
    requires { (length room.now ≡ most_read) × (Within input room.now) × (400 + 12 * 32768 ≤ length text.old) }
    ensures { Sends unread_message Outputs input room.now text.new result.stream result.length }
{
    let Some(n) = input else {
        return streams::put_unread(b"align: standard input cannot be read\n", text);
    };
    let mut list = [0u8; STEPS];
    let length = write_report(&room[..n], None, &mut list, text);
    Output {
        stream: STDOUT,
        length,
    }
}

// Writes what is printed of two images, with a list slice of any length, and hands back how many bytes it has. The vectors that can occur
// are those that a number names, or all.
pub fn write_report(input: &[u8], named: Option<u64>, list: &mut [u8], text: &mut [u8]) -> usize
    requires { 400 + 12 * length list.old ≤ length text.old }
    ensures { Reports named input.now own_tables (own_slices (length list.old)) list.new text.new result }
{
    let mut old_next = [0u8; ENTRIES];
    let mut old_out = [0u8; ENTRIES];
    let mut old_seen = [0u8; ENTRIES];
    let mut new_next = [0u8; ENTRIES];
    let mut new_out = [0u8; ENTRIES];
    let mut new_seen = [0u8; ENTRIES];
    let mut depth = [0u8; PAIRS];
    let mut reach = [0u16; PAIRS];
    list.fill(0);
    write_images(
        input,
        named,
        &mut TableMut {
            next: &mut old_next,
            out: &mut old_out,
            seen: &mut old_seen,
        },
        &mut TableMut {
            next: &mut new_next,
            out: &mut new_out,
            seen: &mut new_seen,
        },
        &mut Scratch {
            depth: &mut depth,
            reach: &mut reach,
        },
        list,
        text,
    )
}

// The text that answers the input, by slices that are lent, of which the list slice is all zero. The old image takes the bytes that its
// header says, and the rest is the new one.
fn write_images(
    input: &[u8],
    named: Option<u64>,
    old_table: &mut TableMut<'_>,
    new_table: &mut TableMut<'_>,
    scratch: &mut Scratch<'_>,
    list: &mut [u8],
    text: &mut [u8],
) -> usize
    requires list_in_bounds { 400 + 12 * length list.old ≤ length text.old }
    requires zero { Zero list.old }
    ensures { Reports named input.now
        (tables_lent_of (lengths_of (held_in old_table.old)) (lengths_of (held_in new_table.old))) (lent_in scratch.old list.old)
        list.new text.new result }
{
    let measured = image::length_of(input);
    let Ok(n) = measured else {
        return put_refused(Side::Old, measured, text);
    };
    let first = image::read(&input[..n]);
    let Ok(()) = first.answer else {
        return put_refused(Side::Old, first.answer, text);
    };
    let second = image::read(&input[n..]);
    let Ok(()) = second.answer else {
        return put_refused(Side::New, second.answer, text);
    };
    let old = first.design;
    let new = second.design;
    let allowed = panel::allowed_by(named, old.inputs);
    write_comparison(old, new, allowed, old_table, new_table, scratch, list, text)
}

// The text on two designs, of whose vectors the number allows those that can occur. No net is watched.
fn write_comparison(
    old: Design,
    new: Design,
    allowed: u64,
    old_table: &mut TableMut<'_>,
    new_table: &mut TableMut<'_>,
    scratch: &mut Scratch<'_>,
    list: &mut [u8],
    text: &mut [u8],
) -> usize
    requires { 400 + 12 * length list.old ≤ length text.old }
    ensures { ReportsDesigns old new allowed
        (tables_lent_of (lengths_of (held_in old_table.old)) (lengths_of (held_in new_table.old))) (lent_in scratch.old list.old)
        list.new text.new result }
{
    let judged = compare::compare(
        old,
        new,
        &[],
        &[],
        allowed,
        old_table,
        new_table,
        scratch,
        list,
    );
    let Ok(verdict) = judged.verdict else {
        return put_refused(Side::Both, judged.verdict, text);
    };
    let facts = facts_of(old, new, allowed, judged);
    match verdict {
        Verdict::Same(steps) => report::put_same(facts, &list[..steps], text),
        Verdict::Apart(pair, steps) => {
            let tables = TablesRef {
                sizes: sizes_of(old, new, allowed),
                old: old_table.as_ref(),
                new: new_table.as_ref(),
            };
            report::put_apart(&tables, facts, pair, &list[..steps], text)
        }
    }
}

// The text of the refusal that an answer is, and nothing of an answer that is none.
fn put_refused<A: Copy>(who: Side, answer: Result<A, Refusal>, text: &mut [u8]) -> usize
    requires { 40 ≤ length text.old }
    ensures { IfErr answer (λ reason. Printed (refusal_text who (number_of reason)) text.new result) }
{
    match answer {
        Ok(_) => 0,
        Err(reason) => report::put_refusal(who, reason.number(), text),
    }
}

// What stands in front of the verdict on two designs.
fn facts_of(old: Design, new: Design, allowed: u64, judged: Judged) -> Facts
    requires accepted { Accepted old × Accepted new }
    requires counts_pairs { CountsPairs (machine_of old []) (machine_of new []) (Ok (sizes_of old new allowed)) (sizes_of old new allowed)
        judged.alike judged.alignable }
    ensures { FactsOf old new allowed result }
{
    let sizes = sizes_of(old, new, allowed);
    Facts {
        inputs: usize::from(old.inputs),
        outputs: usize::from(old.outputs),
        old_latches: usize::from(old.latches),
        new_latches: usize::from(new.latches),
        pairs: sizes.old * sizes.new,
        alike: judged.alike,
        alignable: judged.alignable,
    }
}

// How many states each design has, how many vectors, and which of them can occur.
fn sizes_of(old: Design, new: Design, allowed: u64) -> Sizes
    requires { Accepted old × Accepted new }
    ensures { result ≡ sizes_of old new allowed }
{
    Sizes {
        old: panel::power(old.latches),
        new: panel::power(new.latches),
        vectors: panel::power(old.inputs),
        allowed,
    }
}
