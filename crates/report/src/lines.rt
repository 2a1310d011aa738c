// Whole lines, and the lines in front of a verdict.
ghost use Rattle.std.specs.Prelude.{◌+◌, ◌*◌, ◌<◌, ◌≤◌, ◌++◌, length};
ghost use Rattle.pieces.specs.Meaning.Pieces.{spelled, last_field};
ghost use Rattle.report.specs.Meaning.Text.{sizes_line, head_text, pair_line, shown_line, vector_line, vector_lines};
ghost use Rattle.pieces.specs.Working.Put.{Put};

use crate::Facts;
use machine::Pair;
use pieces::Text;

// The lines in front of a verdict.
pub fn put_head(facts: Facts, text: &mut Text<'_>)
    requires { text.old.end + 213 ≤ length text.old.bytes.now }
    ensures { Put 213 (head_text facts) text.old text.new }
{
    put_sizes(facts, text);
    put_count(b"ALIKE ", facts.alike, facts.pairs, text);
    put_count(b"ALIGNABLE ", facts.alignable, facts.pairs, text);
}

fn put_sizes(facts: Facts, text: &mut Text<'_>)
    requires { text.old.end + 107 ≤ length text.old.bytes.now }
    ensures { Put 107 (sizes_line facts) text.old text.new }
{
    text.put_field(b"INPUTS ", facts.inputs);
    text.put_field(b" OUTPUTS ", facts.outputs);
    text.put_field(b" LATCHES ", facts.old_latches);
    text.put_last_field(b" ", facts.new_latches);
}

// How many of all pairs.
fn put_count(word: &[u8], n: usize, all: usize, text: &mut Text<'_>)
    requires { text.old.end + (length word.now + 45) ≤ length text.old.bytes.now }
    ensures { Put (length word.now + 45) (word.now ++ spelled n ++ last_field " OF " all) text.old text.new }
{
    text.put_field(word, n);
    text.put_last_field(b" OF ", all);
}

// The pair that is apart, and how many steps its trace has.
pub fn put_pair(p: Pair, n: usize, text: &mut Text<'_>)
    requires { text.old.end + 69 ≤ length text.old.bytes.now }
    ensures { Put 69 (pair_line p n) text.old text.new }
{
    text.put_field(b"APART ", p.old);
    text.put_field(b" ", p.new);
    text.put_last_field(b" ", n);
}

// A step of a trace: the vector and both outputs.
pub fn put_step(vector: usize, old: usize, new: usize, text: &mut Text<'_>)
    requires room { text.old.end + 63 ≤ length text.old.bytes.now }
    requires vector_bound { vector < 256 }
    requires bound { old < 256 }
    requires bound_2 { new < 256 }
    ensures { Put 12 (shown_line vector old new) text.old text.new }
{
    text.put_number(vector);
    text.put_field(b" ", old);
    text.put_last_field(b" ", new);
}

// A step of a list: the vector.
fn put_vector(vector: usize, text: &mut Text<'_>)
    requires room { text.old.end + 21 ≤ length text.old.bytes.now }
    requires vector_bound { vector < 256 }
    ensures { Put 4 (vector_line vector) text.old text.new }
{
    text.put_number(vector);
    text.put_word(b"\n");
}

// The vectors of a list.
pub fn put_vectors(list: &[u8], text: &mut Text<'_>)
    requires { text.old.end + (4 * length list.now + 20) ≤ length text.old.bytes.now }
    ensures { Put (4 * length list.now) (vector_lines list.now) text.old text.new }
{
    for byte in list {
        put_vector(usize::from(*byte), text);
    }
}
