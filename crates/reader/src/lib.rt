// The reader: from words to rows, one for each node, children first in field order.
#![tactic(auto)]

ghost use Rattle.std.specs.Prelude.{◌≡◌, Bool, true, false, List, [], ◌∷◌, ℕ, ◌≤◌, ◌<◌, ◌+◌, ltb, length, get_or, set, Ok};
ghost use Rattle.rules.specs.Bytes.{Bytes};
ghost use Rattle.rules.specs.Kinds.{fields_of};
ghost use Rattle.texts.specs.Tokens.{token, from, part, tokens};
ghost use Rattle.texts.specs.Spelling.{close₀};
ghost use Rattle.texts.specs.Rows.{Sofar, got, stopped, ◌onward◌};
ghost use Rattle.texts.specs.Steps as S;
ghost use Rattle.texts.specs.Reader as R;
ghost use Rattle.spell.specs.Vocabulary.{IsPart};
ghost use Rattle.labels.specs.Noted.{Known};
ghost use Rattle.phrases.specs.Gave.{Past, Tables, gave, number, nothing, written};
ghost use Rattle.reader.specs.Held.{Ready, Grew, why_in, gave_in, held_as, heading_in, sofar_in, begun_in, numbers_in, names_put, appended, row_put, entered_as, entry₀, is_inside, is_behind, ends_list, stop_put, step_put, flag, Same, Ended, gave_head_in, used_as, bare_as, other_as, rest_put, BelowKinds};

use kinds::{a_in, b_in, c_in, either, may_be, row_of};
use labels::is_noted;
use phrases::{
    Constant, Read, channel, close, heading, is_plain_value, maybe_value, plain_value, position,
    target,
};
use rules::{Field, TypeField};
use spell::{is_byte, is_name, kind_named};
use texts::Unread;
use tokens::{Span, word_from};

// The fields of a kind: a,
fn field_a(k: u8) -> Field
    requires { k < 30 }
    ensures { result ≡ (fields_of k).a }
{
    if k == 1 {
        return Field::Channel;
    }
    if k == 16 {
        return Field::Binder;
    }
    a_in(row_of(k))
}

// b,
fn field_b(k: u8) -> Field
    requires { k < 30 }
    ensures { result ≡ (fields_of k).b }
{
    if k == 4 {
        return Field::PresentByte;
    }
    if k == 17 {
        return Field::PresentByte;
    }
    b_in(row_of(k))
}

// and c.
fn field_c(k: u8) -> Field
    requires { k < 30 }
    ensures { result ≡ (fields_of k).c }
{
    if k == 10 {
        return Field::Target;
    }
    c_in(row_of(k))
}

// What the type of a kind is.
fn type_field(k: u8) -> TypeField
    requires { k < 30 }
    ensures { result ≡ (fields_of k).ty }
{
    if k == 4 {
        return TypeField::ValueType;
    }
    if k == 17 {
        return TypeField::ValueType;
    }
    if k == 5 {
        return TypeField::AnyType;
    }
    if either(either(k == 6, k == 9), k == 29) {
        return TypeField::PlainType;
    }
    TypeField::NoType
}

// A node begins, if 1,008 have not yet.
fn begin(rows: &mut [usize; 13118]) -> bool
    requires { length rows.old ≡ 13118 }
    ensures { (result ≡ ltb (get_or rows.old 0 0) 1008) × (rows.new ≡ begun_in rows.old) }
{
    let n = rows[0];
    if n < 1008 {
        rows[0] = n + 1;
        return true;
    }
    false
}

// The numbers of the next row: its record.
fn put_numbers(
    rows: &mut [usize; 13118],
    kind: usize,
    ty: usize,
    a: usize,
    b: usize,
    c: usize,
    word: usize,
)
    requires { (length rows.old ≡ 13118) × (get_or rows.old 1 0 < 1008) }
    ensures { rows.new ≡ numbers_in rows.old kind ty a b c word }
{
    let at = 13 * rows[1] + 14;
    rows[at] = kind;
    rows[at + 1] = ty;
    rows[at + 2] = a;
    rows[at + 3] = b;
    rows[at + 4] = c;
    rows[at + 5] = word;
}

// The names of the next row: of the variable that it binds, and a branch's own, each by where it begins and ends.
fn put_names(
    rows: &mut [usize; 13118],
    binds: usize,
    bindsend: usize,
    label: usize,
    labelend: usize,
)
    requires { (length rows.old ≡ 13118) × (get_or rows.old 1 0 < 1008) }
    ensures { rows.new ≡ names_put rows.old binds bindsend label labelend }
{
    let at = 13 * rows[1] + 20;
    rows[at] = binds;
    rows[at + 1] = bindsend;
    rows[at + 2] = label;
    rows[at + 3] = labelend;
}

// The rest of the next row, which ends with it: the name of a variable or of a case's target, and where the node begins. Gives its number.
fn append(rows: &mut [usize; 13118], uses: usize, usesend: usize, place: usize) -> usize
    requires { (length rows.old ≡ 13118) × (get_or rows.old 1 0 < 1008) }
    ensures { (result ≡ get_or rows.old 1 0) × (rows.new ≡ appended rows.old uses usesend place) }
{
    let n = rows[1];
    let at = 13 * n + 24;
    rows[at] = uses;
    rows[at + 1] = usesend;
    rows[at + 2] = place;
    rows[1] = n + 1;
    n
}

// A constant's row.
fn constant_row(rows: &mut [usize; 13118], v: Constant, place: usize, behind: usize) -> Read<usize>
    requires { (length rows.old ≡ 13118) × (get_or rows.old 1 0 < 1008) }
    ensures { (result ≡ record { value = get_or rows.old 1 0; behind = behind }) × (rows.new ≡ row_put rows.old 17 v.ty 0 v.present 0 v.word 0 0 0 0 0 0 place) × (v.ty < 256) × (v.word < 4294967296) }
{
    put_numbers(
        rows,
        17,
        v.ty as usize,
        0,
        v.present as usize,
        0,
        v.word as usize,
    );
    put_names(rows, 0, 0, 0, 0);
    let value = append(rows, 0, 0, place);
    Read { value, behind }
}

// A variable's row.
fn variable_row(rows: &mut [usize; 13118], w: Span) -> Read<usize>
    requires { (length rows.old ≡ 13118) × (get_or rows.old 1 0 < 1008) }
    ensures { (result ≡ record { value = get_or rows.old 1 0; behind = w.end }) × (rows.new ≡ row_put rows.old 16 0 0 0 0 0 0 0 0 0 w.first w.end w.first) }
{
    put_numbers(rows, 16, 0, 0, 0, 0, 0);
    put_names(rows, 0, 0, 0, 0);
    let value = append(rows, w.first, w.end, w.first);
    Read {
        value,
        behind: w.end,
    }
}

// A name as a variable, which must have been bound before.
fn used(
    text: &&[u8],
    rows: &mut [usize; 13118],
    names: &[usize; 4034],
    w: Span,
) -> Result<Read<usize>, Unread>
    requires part { IsPart text.now.now w.first w.end × (w.first < w.end) }
    requires rows_len { (length rows.old ≡ 13118) × (get_or rows.old 1 0 < 1008) }
    requires names_bound { (get_or names.now 0 0 ≤ 1008) × (length names.now ≡ 4034) }
    ensures { (gave number text.now.now (sofar_in text.now.now rows.new names.now) result ≡ used_as (part text.now.now w.first w.end) w.first (from text.now.now w.end) (sofar_in text.now.now rows.old names.now)) × Ended rows.old rows.new }
{
    if !is_name(&text[w.first..w.end]) {
        return Err(Unread::Word(w.first));
    }
    if !is_noted(*text, names, 0, &text[w.first..w.end]) {
        return Err(Unread::Name(w.first));
    }
    Ok(variable_row(rows, w))
}

// A word as a node, where a field asks for one: a constant or a variable.
fn bare(
    text: &&[u8],
    rows: &mut [usize; 13118],
    names: &[usize; 4034],
    f: Field,
    w: Span,
) -> Result<Read<usize>, Unread>
    requires part { IsPart text.now.now w.first w.end × (w.first < w.end) }
    requires rows_len { (length rows.old ≡ 13118) × (get_or rows.old 1 0 < 1008) }
    requires names_bound { (get_or names.now 0 0 ≤ 1008) × (length names.now ≡ 4034) }
    ensures { (gave number text.now.now (sofar_in text.now.now rows.new names.now) result ≡ bare_as f (part text.now.now w.first w.end) w.first (length text.now.now) (from text.now.now w.end) (sofar_in text.now.now rows.old names.now)) × Ended rows.old rows.new }
{
    if !may_be(f, 17) {
        return Err(Unread::Word(w.first));
    }
    if !is_plain_value(&text[w.first..w.end]) {
        return used(text, rows, names, w);
    }
    let r = plain_value(text, w)?;
    Ok(constant_row(rows, r.value, w.first, r.behind))
}

// Behind an open parenthesis, where the word is no kind's: a value.
fn other(
    text: &&[u8],
    rows: &mut [usize; 13118],
    f: Field,
    place: usize,
    w: Span,
) -> Result<Read<usize>, Unread>
    requires part { IsPart text.now.now w.first w.end × (w.first < w.end) }
    requires rows_len { (length rows.old ≡ 13118) × (get_or rows.old 1 0 < 1008) }
    ensures { ((ns : List ℕ) → gave number text.now.now (sofar_in text.now.now rows.new ns) result ≡ other_as f place (part text.now.now w.first w.end) w.first (length text.now.now) (from text.now.now w.end) (sofar_in text.now.now rows.old ns)) × Ended rows.old rows.new }
{
    if !may_be(f, 17) {
        return Err(Unread::Word(w.first));
    }
    let r = maybe_value(text, w)?;
    Ok(constant_row(rows, r.value, place, r.behind))
}

// A field that is for no node: a number, of a target where its name begins.
fn simple(
    text: &&[u8],
    known: &[usize; 2017],
    f: Field,
    present: usize,
    at: usize,
) -> Result<Read<usize>, Unread>
    requires known { Known text.now.now known.now }
    requires f_value { is_inside f ≡ false }
    ensures { (node : R.Nodes) (so : Sofar) → gave (held_as text.now.now f) text.now.now so result ≡ R.field node (R.branch_names (tokens text.now.now)) f present (length text.now.now) (from text.now.now at) so }
{
    match f {
        Field::Unused => Ok(Read {
            value: 0,
            behind: at,
        }),
        Field::Channel => channel(text, at),
        Field::PresentByte => Ok(Read {
            value: present,
            behind: at,
        }),
        Field::Signal => Ok(Read {
            value: 0,
            behind: at,
        }),
        Field::Expression => Ok(Read {
            value: 0,
            behind: at,
        }),
        Field::FirstBranch => Ok(Read {
            value: 0,
            behind: at,
        }),
        Field::NextBranch => Ok(Read {
            value: 65535,
            behind: at,
        }),
        Field::FirstCase => Ok(Read {
            value: 0,
            behind: at,
        }),
        Field::NextCase => Ok(Read {
            value: 65535,
            behind: at,
        }),
        Field::Binder => Ok(Read {
            value: 0,
            behind: at,
        }),
        Field::Target => {
            let w = target(text, known, at)?;
            Ok(Read {
                value: w.first,
                behind: w.end,
            })
        }
    }
}

// A field that asks for a node inside the parentheses.
fn is_inside(f: Field) -> bool
    ensures { result ≡ is_inside f }
{
    match f {
        Field::Unused => false,
        Field::Channel => false,
        Field::PresentByte => false,
        Field::Signal => true,
        Field::Expression => true,
        Field::FirstBranch => true,
        Field::NextBranch => false,
        Field::FirstCase => true,
        Field::NextCase => false,
        Field::Binder => false,
        Field::Target => false,
    }
}

// A field whose node stands behind the parentheses: the next of a list.
fn is_behind(f: Field) -> bool
    ensures { result ≡ is_behind f }
{
    match f {
        Field::Unused => false,
        Field::Channel => false,
        Field::PresentByte => false,
        Field::Signal => false,
        Field::Expression => false,
        Field::FirstBranch => false,
        Field::NextBranch => true,
        Field::FirstCase => false,
        Field::NextCase => true,
        Field::Binder => false,
        Field::Target => false,
    }
}

// A list ends before a closing parenthesis.
fn ends_list(text: &&[u8], at: usize) -> bool
    ensures { result ≡ ends_list (from text.now.now at) }
{
    match word_from(*text, at) {
        None => false,
        Some(w) => is_byte(&text[w.first..w.end], b')'),
    }
}

// Why the text is not read, in the note: a number for what does not fit, and the position.
fn put_stop(rows: &mut [usize; 13118], why: Unread) -> usize
    requires { length rows.old ≡ 13118 }
    ensures { (result ≡ 0) × (rows.new ≡ stop_put rows.old why) }
{
    match why {
        Unread::Word(at) => {
            rows[4] = 0;
            rows[5] = at;
        }
        Unread::Name(at) => {
            rows[4] = 1;
            rows[5] = at;
        }
        Unread::Range(at) => {
            rows[4] = 2;
            rows[5] = at;
        }
    }
    0
}

// What a step gave, in the note: the position behind what was read, and the number; or why the text is not read.
fn put_step(rows: &mut [usize; 13118], s: Result<Read<usize>, Unread>) -> usize
    requires { length rows.old ≡ 13118 }
    ensures { (result ≡ flag s) × (rows.new ≡ step_put rows.old s) }
{
    match s {
        Err(why) => put_stop(rows, why),
        Ok(r) => {
            rows[2] = r.behind;
            rows[3] = r.value;
            1
        }
    }
}

// What stands between a kind's word and its children, in the note. (Not inlined: what it is answered through memory would stand in the frame of
// each level of the recursion.)
#[inline(never)]
fn put_heading(text: &&[u8], rows: &mut [usize; 13118], names: &mut [usize; 4034], k: u8) -> usize
    requires rows_len { length rows.old ≡ 13118 }
    requires k_bound { k < 30 }
    requires tables { Tables names.old 1007 }
    ensures { (gave_head_in text.now.now rows.new names.new result ≡ R.heading k (length text.now.now) (from text.now.now (get_or rows.old 2 0)) (sofar_in text.now.now rows.old names.old)) × Same rows.old rows.new × (length names.new ≡ 4034) × (get_or names.new 0 0 ≤ get_or names.old 0 0 + 1) × (get_or names.new 2017 0 ≤ get_or names.old 2017 0 + 1) × (0 < result → (get_or rows.new 11 0 < 256) × (get_or rows.new 13 0 < 4294967296)) }
{
    match heading(text, names, k, type_field(k), rows[2]) {
        Err(why) => put_stop(rows, why),
        Ok(r) => {
            let h = r.value;
            rows[2] = r.behind;
            rows[7] = h.label.first;
            rows[8] = h.label.end;
            rows[9] = h.binds.first;
            rows[10] = h.binds.end;
            rows[11] = h.ty as usize;
            rows[12] = h.present as usize;
            rows[13] = h.word as usize;
            1
        }
    }
}

// A closing parenthesis.
fn put_close(text: &&[u8], rows: &mut [usize; 13118]) -> usize
    requires { length rows.old ≡ 13118 }
    ensures { ((ns : List ℕ) → gave_in nothing text.now.now rows.new ns result ≡ S.expect close₀ (length text.now.now) (from text.now.now (get_or rows.old 2 0)) (sofar_in text.now.now rows.old ns)) × Same rows.old rows.new }
{
    match close(text, rows[2]) {
        Err(why) => put_stop(rows, why),
        Ok(w) => {
            rows[2] = w.end;
            1
        }
    }
}

// A field inside the parentheses.
#[cycle(behind_field_form_node)]
fn field(
    text: &&[u8],
    known: &[usize; 2017],
    rows: &mut [usize; 13118],
    names: &mut [usize; 4034],
    level: usize,
    f: Field,
) -> usize
    requires known { Known text.now.now known.now }
    requires ready { Ready rows.old names.old }
    ensures { (gave_in (held_as text.now.now f) text.now.now rows.new names.new result ≡ R.field (R.node_f level (R.branch_names (tokens text.now.now)) (length text.now.now)) (R.branch_names (tokens text.now.now)) f (get_or rows.old 12 0) (length text.now.now) (from text.now.now (get_or rows.old 2 0)) (sofar_in text.now.now rows.old names.old)) × Grew rows.old names.old rows.new names.new }
{
    if is_inside(f) {
        return node(text, known, rows, names, level, f);
    }
    let s = simple(text, known, f, rows[12], rows[2]);
    put_step(rows, s)
}

// Behind the parentheses: the next of a list, or what is there already.
#[cycle(behind_field_form_node)]
fn behind(
    text: &&[u8],
    known: &[usize; 2017],
    rows: &mut [usize; 13118],
    names: &mut [usize; 4034],
    level: usize,
    f: Field,
) -> usize
    requires known { Known text.now.now known.now }
    requires ready { Ready rows.old names.old }
    ensures { (gave_in number text.now.now rows.new names.new result ≡ R.behind (R.node_f level (R.branch_names (tokens text.now.now)) (length text.now.now)) f (get_or rows.old 3 0) (from text.now.now (get_or rows.old 2 0)) (sofar_in text.now.now rows.old names.old)) × Grew rows.old names.old rows.new names.new }
{
    if !is_behind(f) {
        return 1;
    }
    if ends_list(text, rows[2]) {
        rows[3] = 65535;
        return 1;
    }
    node(text, known, rows, names, level, f)
}

// The rest of a node of a kind, behind its word.
#[cycle(behind_field_form_node)]
fn form(
    text: &&[u8],
    known: &[usize; 2017],
    rows: &mut [usize; 13118],
    names: &mut [usize; 4034],
    level: usize,
    k: u8,
) -> usize
    requires known { Known text.now.now known.now }
    requires ready { Ready rows.old names.old }
    requires k_bound { k < 30 }
    requires rows_bound { (get_or rows.old 1 0 < get_or rows.old 0 0) × (get_or names.old 0 0 < get_or rows.old 0 0) × (get_or names.old 2017 0 < get_or rows.old 0 0) }
    ensures { (gave_in number text.now.now rows.new names.new result ≡ R.form (R.node_f level (R.branch_names (tokens text.now.now)) (length text.now.now)) (R.branch_names (tokens text.now.now)) (length text.now.now) (get_or rows.old 6 0) k (from text.now.now (get_or rows.old 2 0)) (sofar_in text.now.now rows.old names.old)) × Ready rows.new names.new × (get_or rows.new 1 0 + get_or rows.old 0 0 ≤ get_or rows.old 1 0 + get_or rows.new 0 0 + 1) × (get_or rows.old 0 0 ≤ get_or rows.new 0 0) }
{
    let place = rows[6];
    if put_heading(text, rows, names, k) == 0 {
        return 0;
    }
    let label = rows[7];
    let labelend = rows[8];
    let binds = rows[9];
    let bindsend = rows[10];
    let ty = rows[11];
    let present = rows[12];
    let word = rows[13];
    if field(text, known, rows, names, level, field_a(k)) == 0 {
        return 0;
    }
    let a = rows[3];
    rows[12] = present;
    if field(text, known, rows, names, level, field_b(k)) == 0 {
        return 0;
    }
    let b = rows[3];
    if field(text, known, rows, names, level, field_c(k)) == 0 {
        return 0;
    }
    let c = rows[3];
    let cend = rows[2];
    if put_close(text, rows) == 0 {
        return 0;
    }
    rows[3] = b;
    if behind(text, known, rows, names, level, field_b(k)) == 0 {
        return 0;
    }
    let next = rows[3];
    put_names(rows, binds, bindsend, label, labelend);
    put_rest(rows, k as usize, ty, a, next, c, cend, word, place)
}

// The rest of a form's row: its numbers, and of a case its target, which is no number but a name.
fn put_rest(
    rows: &mut [usize; 13118],
    k: usize,
    ty: usize,
    a: usize,
    b: usize,
    c: usize,
    cend: usize,
    word: usize,
    place: usize,
) -> usize
    requires { (length rows.old ≡ 13118) × (get_or rows.old 1 0 < 1008) }
    ensures { (result ≡ 1) × (rows.new ≡ rest_put rows.old k ty a b c cend word place) }
{
    if k == 10 {
        put_numbers(rows, k, ty, a, b, 0, word);
        let n = append(rows, c, cend, place);
        rows[3] = n;
        return 1;
    }
    put_numbers(rows, k, ty, a, b, c, word);
    let n = append(rows, 0, 0, place);
    rows[3] = n;
    1
}

// What stands where a node begins: a form of a kind, or a node that is read already, or a word that does not fit.
// (Both arms go on, so an Option or a Result would be no plainer.)
#[derive(Clone, Copy)]
pub enum Entered {
    Form(u8),
    Done(usize),
}

// Behind an open parenthesis, which stands at a place: a form, or a value.
fn opened(text: &&[u8], rows: &mut [usize; 13118], f: Field, place: usize, at: usize) -> Entered
    requires { (length rows.old ≡ 13118) × (get_or rows.old 1 0 < 1008) }
    ensures { ((node : R.Nodes) (bs : List Bytes) (ns : List ℕ) → entered_as node bs text.now.now rows.new ns result ≡ (S.next (length text.now.now) (from text.now.now at) (sofar_in text.now.now rows.old ns) onward λ u ts so. R.wordly node bs (length text.now.now) f place u ts so)) × Ended rows.old rows.new × BelowKinds rows.old rows.new result }
{
    match word_from(*text, at) {
        None => Entered::Done(put_stop(rows, Unread::Word(text.len()))),
        Some(w) => {
            let named = kind_named(f, &text[w.first..w.end]);
            match named {
                Some(k) => {
                    rows[2] = w.end;
                    rows[6] = place;
                    Entered::Form(k as u8)
                }
                None => {
                    let s = other(text, rows, f, place, w);
                    Entered::Done(put_step(rows, s))
                }
            }
        }
    }
}

// Where a node begins: a form, or a word.
fn enter(text: &&[u8], rows: &mut [usize; 13118], names: &[usize; 4034], f: Field) -> Entered
    requires rows_len { (length rows.old ≡ 13118) × (get_or rows.old 1 0 < 1008) }
    requires names_bound { (get_or names.now 0 0 ≤ 1008) × (length names.now ≡ 4034) }
    ensures { ((node : R.Nodes) (bs : List Bytes) → entered_as node bs text.now.now rows.new names.now result ≡ entry₀ node bs (length text.now.now) f (from text.now.now (get_or rows.old 2 0)) (sofar_in text.now.now rows.old names.now)) × Ended rows.old rows.new × BelowKinds rows.old rows.new result }
{
    match word_from(*text, rows[2]) {
        None => Entered::Done(put_stop(rows, Unread::Word(text.len()))),
        Some(w) => {
            if is_byte(&text[w.first..w.end], b'(') {
                return opened(text, rows, f, w.first, w.end);
            }
            let s = bare(text, rows, names, f, w);
            Entered::Done(put_step(rows, s))
        }
    }
}

// A node, for a field that asks for a signal, an expression, a branch or a case. (It answers 1 or 0 and leaves what it read, or why not, in the note:
// an answer through memory took 700 KiB of stack at 1,008 levels, and a call has 512. So names and rows are one array each, with their counts in them.)
#[cycle(behind_field_form_node)]
pub fn node(
    text: &&[u8],
    known: &[usize; 2017],
    rows: &mut [usize; 13118],
    names: &mut [usize; 4034],
    level: usize,
    f: Field,
) -> usize
    requires known { Known text.now.now known.now }
    requires ready { Ready rows.old names.old }
    ensures { (gave_in number text.now.now rows.new names.new result ≡ (R.node_f level (R.branch_names (tokens text.now.now)) (length text.now.now)) f (from text.now.now (get_or rows.old 2 0)) (sofar_in text.now.now rows.old names.old)) × Grew rows.old names.old rows.new names.new }
{
    if level == 0 {
        let p = position(text, rows[2]);
        return put_stop(rows, Unread::Word(p));
    }
    if !begin(rows) {
        let p = position(text, rows[2]);
        return put_stop(rows, Unread::Word(p));
    }
    match enter(text, rows, names, f) {
        Entered::Form(k) => form(text, known, rows, names, level - 1, k),
        Entered::Done(b) => b,
    }
}

// Why the text is not read, by the note.
pub fn stop_of(rows: &[usize; 13118]) -> Unread
    ensures { result ≡ why_in rows.now }
{
    if rows[4] == 0 {
        return Unread::Word(rows[5]);
    }
    if rows[4] == 1 {
        return Unread::Name(rows[5]);
    }
    Unread::Range(rows[5])
}
