// Puts questions to the public calls, and prints what each answers and what the slices that it writes hold then. Standard input has a
// question a line; an empty line and one that begins with # or a space are repeated. A question is the name of a call and then, each behind a space,
//
//   the designs that it takes,
//   a list of numbers,
//   the bytes that it reads.
//
// A list has a comma or a slash between two entries, and v*n stands for n entries v. Behind an x it is of bytes in hexadecimal, two digits
// each, and between these no comma is needed. A design is its image behind an x; or a list, sound or not, of all that stands in memory: its
// four sizes, 7 data, 7 enable and 7 clear nets of flip-flops, 8 nets shown as outputs, and a kind and two nets for each cell. What a list
// leaves out at its end is 0.
//
//   length_of x111100008060                 the image
//   read x111100008060
//   fault_of 1,1,1,0/2,0*6/1*7/0*7/3        P in memory
//   levelize x11110110100080C0004028        Q, which has cells
//   clock x111100008060 0,1                 the state and the vector
//   write x111100008060 7/6                 what the slices hold at entry, and the length of each, in the order of the call
//   tabulate x111100008060 7/4,4,4/3,2      behind the lengths the watched nets
//   tabulate_both x111100008060 x111100008040 7/4*6/1,3,2
//   compare x111100008060 x111100008040 7/4*6/4,4,1/0,0,0,3/1,3,2
//   map_alike 7/4*6/4,4,4/2,2,2 0,1,0,1/0,0,1,1/0*4/0,1,0,1/0,1,0,1/0*4
//   map_alignable 7/4*6/4,4,4/2,2,2/0,0/0,0,0,1 0,1,0,1/0,0,1,1/0*4/0,1,0,1/0,1,0,1/0*4   only vector 0 is allowed
//   trace_of 7/4*6/4,4,1/2,2,2/0,1/0,0,0,3 0,1,0,1/0,0,1,1/0*4/0,1,0,1/0,1,0,1/0*4
//   earlier_number 19,10                    two numbers of refusals
//
// Of two designs the watched nets stand last: how many of the old one are watched, these, and those of the new one; without them none is.
// map_alignable and judge are asked as map_alike is, list_of as trace_of: behind the lengths stand S of the old design, S of the new, V,
// and the pair, of which maps and the verdict take no notice; the bytes are the six tables, of next states, outputs and watched values. Last
// comes the number that names the allowed vectors, in four parts of 16 bits, the most significant first; where they are left out, all V
// vectors are allowed. length_of and read take no list of numbers: their image stands behind an x. An answer shows each written slice behind
// a bar, as a list, 00*0 for an empty one; of one with more than 64 runs of one value the first 64 runs, and a sum in which an entry counts
// by where it stands.
#![tactic(auto)]

mod asked;
mod calls;
mod designs;
mod given;
mod show;
mod tables;
mod words;

use asked::Question;
use calls::Call;
use designs::low;
use machine::TablesRef;
use memory::Scratch;
use tables::{Lent, MOST, PAIRS, TABLE, front};

// The most bytes of all lines, and bytes of a list that is read.
const LINES: usize = 262144;

const BYTES: usize = 50000;

fn main() {
    let mut all = [0u8; LINES];
    let n = io::read_full(0, &mut all);
    if n == LINES {
        show::word(b"NO QUESTIONS: the lines have more than 262,143 bytes\n");
        return;
    }
    ask_all(&all[..n]);
}

// Goes through the lines.
fn ask_all(all: &[u8]) {
    for line in all.split_inclusive(|c| *c == b'\n') {
        ask(line.strip_suffix(b"\n").unwrap_or(line));
        io::write_all(1, b"\n");
    }
}

// Repeats a heading, or answers a question.
fn ask(line: &[u8]) {
    match line {
        [] | [0 | b' ' | b'#', ..] => show::word(line),
        _ => ask_call(line),
    }
}

// Reads a question, and answers it.
fn ask_call(line: &[u8]) {
    let mut bytes = [0u8; BYTES];
    match asked::question_of(line, &mut bytes) {
        None => show::word(
            b"NO QUESTION: a word is missing, spelled wrong, too long or one too many",
        ),
        Some(question) => answer(&question),
    }
}

// Puts a question, and shows what is answered.
fn answer(q: &Question<'_>) {
    match q.call {
        None => show::word(b"NO QUESTION: no such call"),
        Some(Call::Compare) => ask_compare(q),
        Some(Call::TabulateBoth) => ask_tabulate_both(q),
        Some(Call::Tabulate) => ask_tabulate(q),
        Some(Call::Write) => ask_write(q),
        Some(Call::Clock) => ask_clock(q),
        Some(Call::FaultOf) => show::refusal(b"fault ", order::fault_of(q.old)),
        Some(Call::Levelize) => show::plan(order::levelize(q.old)),
        Some(Call::LengthOf) => show::answer(image::length_of(q.bytes), show::bytes),
        Some(Call::Read) => show::reading(image::read(q.bytes)),
        Some(Call::MapAlike) => ask_tables(q, |tables, scratch, mark| {
            show::answer(engine::map_alike(tables, scratch, mark), show::alike);
        }),
        Some(Call::MapAlignable) => ask_tables(q, |tables, scratch, mark| {
            show::answer(engine::map_alignable(tables, scratch, mark), show::marked);
        }),
        Some(Call::TraceOf) => ask_tables(q, |tables, scratch, list| {
            show::answer(
                engine::trace_of(tables, q.numbers.pair(), scratch, list),
                show::steps,
            );
        }),
        Some(Call::ListOf) => ask_tables(q, |tables, scratch, list| {
            show::answer(
                engine::list_of(tables, q.numbers.pair(), scratch, list),
                show::steps,
            );
        }),
        Some(Call::Judge) => ask_tables(q, |tables, scratch, list| {
            show::judged(verdict::judge(tables, scratch, list));
        }),
        Some(Call::EarlierNumber) => ask_earlier_number(q),
    }
}

fn ask_compare(q: &Question<'_>) {
    let n = &q.numbers;
    let mut old_room = [n.held(); TABLE];
    let mut new_room = [n.held(); TABLE];
    let mut bytes = [low(n.at(0)); PAIRS];
    let mut reach = [n.at(0); MOST];
    let mut old_table = tables::table(&mut old_room, n.table_lengths(1));
    let mut new_table = tables::table(&mut new_room, n.table_lengths(4));
    let Lent { mut scratch, list } = tables::pair(&mut bytes, &mut reach, n.pair_lengths());
    let end = 15 + usize::from(n.at(14));
    let judged = compare::compare(
        q.old,
        q.new,
        n.part(15, end),
        n.part(end, n.given),
        n.allowed(10, 1 << q.old.inputs.min(6)),
        &mut old_table,
        &mut new_table,
        &mut scratch,
        list,
    );
    show::judged(judged);
    show::table(&old_table);
    show::table(&new_table);
    show::scratch(&scratch);
    show::entries(list);
}

fn ask_tabulate_both(q: &Question<'_>) {
    let n = &q.numbers;
    let mut old_room = [n.held(); TABLE];
    let mut new_room = [n.held(); TABLE];
    let mut old_table = tables::table(&mut old_room, n.table_lengths(1));
    let mut new_table = tables::table(&mut new_room, n.table_lengths(4));
    let end = 8 + usize::from(n.at(7));
    let tabulated = simulator::tabulate_both(
        q.old,
        q.new,
        n.part(8, end),
        n.part(end, n.given),
        &mut old_table,
        &mut new_table,
    );
    show::answer(tabulated, show::both_sizes);
    show::table(&old_table);
    show::table(&new_table);
}

fn ask_tabulate(q: &Question<'_>) {
    let n = &q.numbers;
    let mut room = [n.held(); TABLE];
    let mut table = tables::table(&mut room, n.table_lengths(1));
    let tabulated = simulator::tabulate(q.old, n.part(4, n.given), &mut table);
    show::answer(tabulated, show::sizes);
    show::table(&table);
}

fn ask_write(q: &Question<'_>) {
    let n = &q.numbers;
    let mut room = [n.held(); MOST];
    let image = front(&mut room, n.at(1));
    show::answer(writer::write(q.old, image), show::bytes);
    show::image(image);
}

fn ask_clock(q: &Question<'_>) {
    let n = &q.numbers;
    let state = usize::from(n.at(0));
    let vector = usize::from(n.at(1));
    show::answer(simulator::clock(q.old, state, vector), show::step);
}

fn ask_earlier_number(q: &Question<'_>) {
    let n = &q.numbers;
    let number = memory::earlier_number(low(n.at(0)), low(n.at(1)));
    show::item(b"number ", usize::from(number));
}

// Lends tables that the bytes hold, and scratch and a mark or list slice beside them.
fn ask_tables<F: FnOnce(&TablesRef<'_>, &mut Scratch<'_>, &mut [u8])>(q: &Question<'_>, asked: F)
    requires { F.IsAlwaysCallable asked }
{
    let Some(tables) = tables::tables_of(q) else {
        show::word(b"NO QUESTION: the tables have other lengths");
        return;
    };
    let n = &q.numbers;
    let mut bytes = [low(n.at(0)); PAIRS];
    let mut reach = [n.at(0); MOST];
    let Lent { mut scratch, list } = tables::pair(&mut bytes, &mut reach, n.pair_lengths());
    asked(&tables, &mut scratch, list);
    show::scratch(&scratch);
    show::entries(list);
}
