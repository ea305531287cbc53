// The lines, put at the start of a lent array. Each function answers the line's length.
ghost use Rattle.std.specs.Prelude.{◌≡◌, take};
ghost use Rattle.io.specs.Counts.{IsPrefixLen};
ghost use Rattle.lines.specs.Print.{end_line, first_line, refused_line, step_line};

use crate::pen::Pen;
use rules::{Refusal, Value};

// The first line of an accepted program.
pub fn first_line(n: u32, cells: u32, bound: u32, ty: u8, line: &mut [u8; 64]) -> usize
    ensures prefix_len { IsPrefixLen result line.new }
    ensures line_after { take result line.new ≡ first_line n cells bound ty }
{
    let mut pen = Pen { line, at: 0 };
    pen.word(b"OK ");
    pen.field(n, b' ');
    pen.field(cells, b' ');
    pen.field(bound, b' ');
    pen.type_words(ty);
    pen.word(b"\n");
    pen.at
}

// The line of a step.
pub fn step_line(time: u32, v: Value, work: u32, line: &mut [u8; 64]) -> usize
    ensures prefix_len { IsPrefixLen result line.new }
    ensures line_after { take result line.new ≡ step_line time v work }
{
    let mut pen = Pen { line, at: 0 };
    pen.field(time, b' ');
    pen.value_words(v);
    pen.word(b" ");
    pen.field(work, b'\n');
    pen.at
}

// The last line of a run that ends with its input.
pub fn end_line(steps: u32, work: u32, line: &mut [u8; 64]) -> usize
    ensures prefix_len { IsPrefixLen result line.new }
    ensures line_after { take result line.new ≡ end_line steps work }
{
    let mut pen = Pen { line, at: 0 };
    pen.word(b"END ");
    pen.field(steps, b' ');
    pen.field(work, b'\n');
    pen.at
}

// The last line of a refusal.
pub fn refused_line(r: Refusal, line: &mut [u8; 64]) -> usize
    ensures prefix_len { IsPrefixLen result line.new }
    ensures line_after { take result line.new ≡ refused_line r }
{
    let code = rules::code_of(r) as u32;
    let place = rules::place_of(r);
    let mut pen = Pen { line, at: 0 };
    pen.word(b"REFUSED ");
    pen.field(code, b' ');
    pen.field(place, b'\n');
    pen.at
}
