// The forms of a table: each node's text, put on a sheet, and the table's whole text in a room.
#![tactic(auto)]

ghost use Rattle.std.specs.Prelude.{◌≡◌, [], ◌∷◌, false, ◌+◌, ◌≤◌, length, if◌then◌else◌};
ghost use Rattle.rules.specs.Node.{IsNode};
ghost use Rattle.rules.specs.Layout.{nodes};
ghost use Rattle.rules.specs.Kinds.{fields_of};
ghost use Rattle.texts.specs.Spelling.{kind_word, edition_word};
ghost use Rattle.texts.specs.Printer.{spaced, branch_name, opening as openingPiece, type_pieces, behind_pieces, pieces_f, printed};
ghost use Rattle.letters.specs.Wrote.{Wrote, spread};
ghost use Rattle.letters.specs.Puts.{Puts};
ghost use Rattle.forms.specs.Laying.{Blocks, is_binding, is_valued, channel_pieces, head_pieces, child_pieces};

use kinds::{a_in, b_in, both, c_in, either, is_child, may_be, may_stop, row_of};
use letters::Sheet;
use rules::{Field, Node};
use table::{LAST, node};

// The fields of node i; zeros where there is no such record.
fn fields(q: &[u8], i: usize) -> Node
    requires { Blocks q.now }
    ensures { IsNode q.now i result }
{
    if i < q.len() / 512 * 42 {
        return node(q, i);
    }
    Node {
        kind: 0,
        ty: 0,
        a: 0,
        b: 0,
        c: 0,
        word: 0,
    }
}

// An open parenthesis: for an expression, and for a short first child, on the same line; else on a line of its own.
fn opening(sheet: &mut Sheet, f: Field, first: bool, k: u8, depth: usize)
    ensures { Puts sheet.old (spread (openingPiece f first k depth ∷ [])) sheet.new }
{
    if either(may_be(f, 17), both(first, k < 4)) {
        sheet.put(b' ');
        return sheet.put(b'(');
    }
    sheet.line(depth);
    sheet.put(b'(');
}

// A kind's word.
fn kind_word(sheet: &mut Sheet, k: u8)
    ensures { Puts sheet.old (kind_word k) sheet.new }
{
    if k < 30 {
        sheet.word(k as usize);
    }
}

// A branch's name, where a kind says one: a branch its own, a case its target's.
fn branch_name(sheet: &mut Sheet, said: bool, i: usize)
    ensures { Puts sheet.old (spread (if said then spaced (branch_name i) ∷ [] else [])) sheet.new }
{
    if said {
        sheet.name(b'k', i);
    }
}

// Kinds that bind a variable, and kinds that have a value.
fn binds(k: u8) -> bool
    ensures { result ≡ is_binding (fields_of k).ty }
{
    either(either(k == 5, k == 6), either(k == 9, k == 29))
}

fn has_value(k: u8) -> bool
    ensures { result ≡ is_valued (fields_of k).ty }
{
    either(k == 4, k == 17)
}

// A variable's name and its type, or a value, or nothing.
fn type_part(sheet: &mut Sheet, i: usize, n: Node)
    ensures { Puts sheet.old (spread (type_pieces (fields_of n.kind).ty i n.ty n.b n.word)) sheet.new }
{
    if binds(n.kind) {
        sheet.name(b'x', i);
        sheet.put(b' ');
        return sheet.type_word(n.ty);
    }
    if has_value(n.kind) {
        sheet.value(n.ty, n.b, n.word);
    }
}

// An input's channel.
fn channel(sheet: &mut Sheet, k: u8, x: usize)
    ensures { Puts sheet.old (spread (channel_pieces k x)) sheet.new }
{
    if k == 1 {
        sheet.number(x);
    }
}

// What stands before a form's children: its parenthesis, its kind's word, names, type, value and channel.
fn heading(sheet: &mut Sheet, f: Field, first: bool, depth: usize, i: usize, n: Node)
    ensures { Puts sheet.old (spread (head_pieces f first depth n.kind i n.ty n.b n.word n.a)) sheet.new }
{
    let k = n.kind;
    opening(sheet, f, first, k, depth);
    kind_word(sheet, k);
    branch_name(sheet, k == 9, i);
    type_part(sheet, i, n);
    channel(sheet, k, n.a);
}

// A child inside the parentheses.
#[cycle(behind_child_form)]
fn child(q: &&[u8], sheet: &mut Sheet, level: usize, depth: usize, first: bool, f: Field, x: usize)
    requires { Blocks q.now.now × (depth + level ≤ 1008) }
    ensures { Puts sheet.old (spread (child_pieces (pieces_f level q.now.now depth first) f x)) sheet.new }
{
    if both(is_child(f), !may_stop(f)) {
        form(q, sheet, level, depth, first, f, x);
    }
}

// The next of a list, behind the parentheses.
#[cycle(behind_child_form)]
fn behind(q: &&[u8], sheet: &mut Sheet, level: usize, depth: usize, f: Field, x: usize)
    requires { Blocks q.now.now × (depth + level ≤ 1008) }
    ensures { Puts sheet.old (spread (behind_pieces (pieces_f level q.now.now depth false) f x)) sheet.new }
{
    if both(may_stop(f), x != LAST) {
        form(q, sheet, level, depth, false, f, x);
    }
}

// Node i, for a field that asks for its sort, so deep, of so many levels.
#[cycle(behind_child_form)]
fn form(q: &&[u8], sheet: &mut Sheet, level: usize, depth: usize, first: bool, f: Field, i: usize)
    requires { Blocks q.now.now × (depth + level ≤ 1008) }
    ensures { Puts sheet.old (spread (pieces_f level q.now.now depth first f i)) sheet.new }
{
    if level == 0 {
        return;
    }
    let n = fields(*q, i);
    let k = n.kind;
    if k == 16 {
        return sheet.name(b'x', n.a);
    }
    if k == 17 {
        return sheet.value(n.ty, n.b, n.word);
    }
    let row = row_of(k);
    let next = b_in(row);
    heading(sheet, f, first, depth, i, n);
    child(q, sheet, level - 1, depth + 1, true, a_in(row), n.a);
    child(q, sheet, level - 1, depth + 1, false, next, n.b);
    child(q, sheet, level - 1, depth + 1, false, c_in(row), n.c);
    branch_name(sheet, k == 10, n.c);
    sheet.put(b')');
    behind(q, sheet, level - 1, depth, next, n.b);
}

// The row of the first edition's word; the second's follows.
const EDITIONS: usize = 42;

// The word of an edition.
fn edition_word(sheet: &mut Sheet, e: u8)
    ensures { Puts sheet.old (edition_word e) sheet.new }
{
    if e < 2 {
        sheet.word(EDITIONS + e as usize);
    }
}

// The whole text of a table, at the room's front: how long it is.
pub fn put_text(q: &[u8], room: &mut [u8], count: usize) -> usize
    requires { Blocks q.now × (4 ≤ length q.now) × (count ≡ nodes q.now) × (1 ≤ count) × (count ≤ 1008) }
    ensures { Wrote room.old 0 (printed q.now) room.new result }
{
    let mut sheet = Sheet { room, at: 0 };
    edition_word(&mut sheet, q[3]);
    form(&q, &mut sheet, count, 0, false, Field::Signal, count - 1);
    sheet.put(b'\n');
    sheet.at
}
