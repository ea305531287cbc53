// The steps of reading a text: a word that must stand there, a name bound or used, a type, a number, a value, and what stands between a kind's
// word and its children. Each begins at a position and gives the position behind what it read, or why the text is not read.
#![tactic(auto)]

ghost use Rattle.std.specs.Prelude.{◌≡◌, true, false, ◌≤◌, ◌<◌, ◌+◌, length, get_or, Ok};
ghost use Rattle.rules.specs.Bytes.{Bytes};
ghost use Rattle.rules.specs.Kinds.{fields_of};
ghost use Rattle.texts.specs.Tokens.{token, from, part, tokens};
ghost use Rattle.texts.specs.Spelling.{close₀};
ghost use Rattle.texts.specs.Numerals.{is_number};
ghost use Rattle.texts.specs.Rows.{Sofar, got, ◌onward◌};
ghost use Rattle.texts.specs.Steps as S;
ghost use Rattle.texts.specs.Reader as R;
ghost use Rattle.spell.specs.Vocabulary.{IsPart, allowed};
ghost use Rattle.labels.specs.Noted.{Known, named_by};
ghost use Rattle.phrases.specs.Gave.{Past, with_names, Tables, gave, gave_word, number, nothing, NamePart, Below, written, gave_value, PlainTyped, gave_head, some_value, none_value};
ghost use Rattle.rules.specs.declared.TypeField.{TypeField};

use labels::{is_noted, is_target, note};
use rules::TypeField;
use spell::{NumberFault, is_byte, is_name, number_of_word, spells, type_named};
use texts::Unread;
use tokens::{Span, word_from};

// What was read, and the position behind it.
#[derive(Clone, Copy)]
pub struct Read<T> {
    pub value: T,
    pub behind: usize,
}

// A value: type, present byte and word.
#[derive(Clone, Copy)]
pub struct Constant {
    pub ty: u8,
    pub present: u8,
    pub word: u32,
}

// What stands between a kind's word and its children: a branch's own name, the variable that is bound; type, present byte and word.
#[derive(Clone, Copy)]
pub struct Head {
    pub label: Span,
    pub binds: Span,
    pub ty: u8,
    pub present: u8,
    pub word: u32,
}

// The position of the next word; the text's length, if there is none.
pub fn position(text: &&[u8], at: usize) -> usize
    ensures { result ≡ S.position (length text.now.now) (from text.now.now at) }
{
    match word_from(*text, at) {
        None => text.len(),
        Some(w) => w.first,
    }
}

// The next word, which must be there.
fn next(text: &&[u8], at: usize) -> Result<Span, Unread>
    ensures { ((so : Sofar) → gave_word (λ s e. token s (part text.now.now s e)) text.now.now so result ≡ S.next (length text.now.now) (from text.now.now at) so) × NamePart text.now.now result }
{
    match word_from(*text, at) {
        None => Err(Unread::Word(text.len())),
        Some(w) => Ok(w),
    }
}

// A closing parenthesis.
pub fn close(text: &&[u8], at: usize) -> Result<Span, Unread>
    ensures { (so : Sofar) → gave_word nothing text.now.now so result ≡ S.expect close₀ (length text.now.now) (from text.now.now at) so }
{
    let w = next(text, at)?;
    if is_byte(&text[w.first..w.end], b')') {
        return Ok(w);
    }
    Err(Unread::Word(w.first))
}

// A name.
fn name(text: &&[u8], at: usize) -> Result<Span, Unread>
    ensures { ((so : Sofar) → gave_word (λ s e. token s (part text.now.now s e)) text.now.now so result ≡ S.name (length text.now.now) (from text.now.now at) so) × NamePart text.now.now result }
{
    let w = next(text, at)?;
    if is_name(&text[w.first..w.end]) {
        return Ok(w);
    }
    Err(Unread::Word(w.first))
}

// A name that is bound nowhere before.
fn fresh(text: &&[u8], names: &[usize; 4034], at: usize) -> Result<Span, Unread>
    requires { Tables names.now 1008 }
    ensures { ((p : Past) → gave_word (λ s e. part text.now.now s e) text.now.now (with_names p text.now.now names.now) result ≡ S.fresh (length text.now.now) (from text.now.now at) (with_names p text.now.now names.now)) × NamePart text.now.now result }
{
    let w = name(text, at)?;
    if is_noted(*text, names, 0, &text[w.first..w.end]) {
        return Err(Unread::Name(w.first));
    }
    if is_noted(*text, names, 2017, &text[w.first..w.end]) {
        return Err(Unread::Name(w.first));
    }
    Ok(w)
}

// A variable's name, bound here.
fn variable(text: &&[u8], names: &mut [usize; 4034], at: usize) -> Result<Span, Unread>
    requires tables { Tables names.old 1008 }
    requires names_bound { get_or names.old 0 0 < 1008 }
    ensures { ((p : Past) → gave_word (λ s e. part text.now.now s e) text.now.now (with_names p text.now.now names.new) result ≡ S.variable (length text.now.now) (from text.now.now at) (with_names p text.now.now names.old)) × NamePart text.now.now result × (length names.new ≡ 4034) × (get_or names.new 0 0 ≤ get_or names.old 0 0 + 1) × (get_or names.new 2017 0 ≡ get_or names.old 2017 0) }
{
    let w = fresh(text, names, at)?;
    note(names, 0, w);
    Ok(w)
}

// A branch's own name, bound here.
fn label(text: &&[u8], names: &mut [usize; 4034], at: usize) -> Result<Span, Unread>
    requires tables { Tables names.old 1008 }
    requires names_bound { get_or names.old 2017 0 < 1008 }
    ensures { ((p : Past) → gave_word (λ s e. part text.now.now s e) text.now.now (with_names p text.now.now names.new) result ≡ S.label (length text.now.now) (from text.now.now at) (with_names p text.now.now names.old)) × NamePart text.now.now result × (length names.new ≡ 4034) × (get_or names.new 2017 0 ≤ get_or names.old 2017 0 + 1) × (get_or names.new 0 0 ≡ get_or names.old 0 0) }
{
    let w = fresh(text, names, at)?;
    note(names, 2017, w);
    Ok(w)
}

// A case's target: the name of a branch that stands anywhere in the text.
pub fn target(text: &&[u8], known: &[usize; 2017], at: usize) -> Result<Span, Unread>
    requires { Known text.now.now known.now }
    ensures { ((so : Sofar) → gave_word (λ s e. part text.now.now s e) text.now.now so result ≡ S.target (R.branch_names (tokens text.now.now)) (length text.now.now) (from text.now.now at) so) × NamePart text.now.now result }
{
    let w = name(text, at)?;
    if is_target(*text, known, &text[w.first..w.end]) {
        return Ok(w);
    }
    Err(Unread::Name(w.first))
}

// A type: a plain one, or any.
fn type_word(text: &&[u8], plain: bool, at: usize) -> Result<Read<usize>, Unread>
    ensures { ((so : Sofar) → gave number text.now.now so result ≡ S.type (allowed plain) (length text.now.now) (from text.now.now at) so) × Below 8 result }
{
    let w = next(text, at)?;
    let named = type_named(plain, &text[w.first..w.end]);
    match named {
        Some(t) => Ok(Read {
            value: t as usize,
            behind: w.end,
        }),
        None => Err(Unread::Word(w.first)),
    }
}

// A channel, 0-7.
pub fn channel(text: &&[u8], at: usize) -> Result<Read<usize>, Unread>
    ensures { (so : Sofar) → gave number text.now.now so result ≡ S.channel (length text.now.now) (from text.now.now at) so }
{
    let w = next(text, at)?;
    match number_of_word(&text[w.first..w.end]) {
        Err(NumberFault::Other) => Err(Unread::Word(w.first)),
        Err(NumberFault::Outside) => Err(Unread::Range(w.first)),
        Ok(n) => {
            if n < 8 {
                return Ok(Read {
                    value: n as usize,
                    behind: w.end,
                });
            }
            Err(Unread::Range(w.first))
        }
    }
}

// A value of a type that is present.
fn present_value(ty: u8, present: u8, word: u32, behind: usize) -> Read<Constant>
    ensures { ((so : Sofar) (text : Bytes) → gave_value text so (Ok result) ≡ got (record { type = ty; present = present; word = word }) (from text behind) so) × (ty < 4 → PlainTyped (Ok result)) }
{
    Read {
        value: Constant { ty, present, word },
        behind,
    }
}

// A word that is no number as a plain value: true, false, unit.
fn plain_word(text: &&[u8], w: Span) -> Result<Read<Constant>, Unread>
    requires part { IsPart text.now.now w.first w.end }
    requires no_number { is_number (part text.now.now w.first w.end) ≡ false }
    ensures { ((so : Sofar) → gave_value text.now.now so result ≡ S.plain_value (token w.first (part text.now.now w.first w.end)) (length text.now.now) (from text.now.now w.end) so) × PlainTyped result }
{
    let word = &text[w.first..w.end];
    if spells(word, 38) {
        return Ok(present_value(2, 1, 1, w.end));
    }
    if spells(word, 39) {
        return Ok(present_value(2, 1, 0, w.end));
    }
    if spells(word, 31) {
        return Ok(present_value(1, 1, 0, w.end));
    }
    Err(Unread::Word(w.first))
}

// A word as a plain value.
pub fn plain_value(text: &&[u8], w: Span) -> Result<Read<Constant>, Unread>
    requires { IsPart text.now.now w.first w.end }
    ensures { ((so : Sofar) → gave_value text.now.now so result ≡ S.plain_value (token w.first (part text.now.now w.first w.end)) (length text.now.now) (from text.now.now w.end) so) × PlainTyped result }
{
    match number_of_word(&text[w.first..w.end]) {
        Ok(n) => Ok(present_value(3, 1, n, w.end)),
        Err(NumberFault::Outside) => Err(Unread::Range(w.first)),
        Err(NumberFault::Other) => plain_word(text, w),
    }
}

// A word is a plain value.
pub fn is_plain_value(word: &[u8]) -> bool
    ensures { result ≡ S.is_plain_value word.now }
{
    match number_of_word(word) {
        Ok(n) => true,
        Err(NumberFault::Outside) => true,
        Err(NumberFault::Other) => spells(word, 38) || spells(word, 39) || spells(word, 31),
    }
}

// A value within parentheses, of which the last is left.
fn closed(text: &&[u8], v: Constant, at: usize) -> Result<Read<Constant>, Unread>
    ensures { (so : Sofar) → gave_value text.now.now so result ≡ (S.expect close₀ (length text.now.now) (from text.now.now at) so onward λ _ ts so. got (written v) ts so) }
{
    let w = close(text, at)?;
    Ok(Read {
        value: v,
        behind: w.end,
    })
}

// Behind some: a plain value.
fn some_value(text: &&[u8], at: usize) -> Result<Read<Constant>, Unread>
    ensures { (so : Sofar) → gave_value text.now.now so result ≡ some_value (length text.now.now) (from text.now.now at) so }
{
    let w = next(text, at)?;
    let r = plain_value(text, w)?;
    let v = r.value;
    closed(
        text,
        Constant {
            ty: v.ty + 4,
            present: 1,
            word: v.word,
        },
        r.behind,
    )
}

// Behind none: a plain type.
fn none_value(text: &&[u8], at: usize) -> Result<Read<Constant>, Unread>
    ensures { (so : Sofar) → gave_value text.now.now so result ≡ none_value (length text.now.now) (from text.now.now at) so }
{
    let t = type_word(text, true, at)?;
    closed(
        text,
        Constant {
            ty: t.value as u8 + 4,
            present: 0,
            word: 0,
        },
        t.behind,
    )
}

// Behind an open parenthesis: some or none, which is this word, and what belongs to it.
pub fn maybe_value(text: &&[u8], w: Span) -> Result<Read<Constant>, Unread>
    requires { IsPart text.now.now w.first w.end }
    ensures { (so : Sofar) → gave_value text.now.now so result ≡ S.maybe_value (token w.first (part text.now.now w.first w.end)) (length text.now.now) (from text.now.now w.end) so }
{
    let word = &text[w.first..w.end];
    if spells(word, 40) {
        return some_value(text, w.end);
    }
    if spells(word, 41) {
        return none_value(text, w.end);
    }
    Err(Unread::Word(w.first))
}

// Behind an open parenthesis, from a position on.
fn maybe_from(text: &&[u8], at: usize) -> Result<Read<Constant>, Unread>
    ensures { (so : Sofar) → gave_value text.now.now so result ≡ (S.next (length text.now.now) (from text.now.now at) so onward λ u ts so. S.maybe_value u (length text.now.now) ts so) }
{
    let w = next(text, at)?;
    maybe_value(text, w)
}

// A value.
fn value(text: &&[u8], at: usize) -> Result<Read<Constant>, Unread>
    ensures { (so : Sofar) → gave_value text.now.now so result ≡ S.value (length text.now.now) (from text.now.now at) so }
{
    let w = next(text, at)?;
    if is_byte(&text[w.first..w.end], b'(') {
        return maybe_from(text, w.end);
    }
    plain_value(text, w)
}

// A variable and its type.
fn binding(
    text: &&[u8],
    names: &mut [usize; 4034],
    plain: bool,
    own: Span,
    at: usize,
) -> Result<Read<Head>, Unread>
    requires tables { Tables names.old 1008 }
    requires names_bound { get_or names.old 0 0 < 1008 }
    ensures { ((p : Past) → gave_head text.now.now (with_names p text.now.now names.new) result ≡ R.binding (allowed plain) (named_by text.now.now own.first own.end) (length text.now.now) (from text.now.now at) (with_names p text.now.now names.old)) × (length names.new ≡ 4034) × (get_or names.new 0 0 ≤ get_or names.old 0 0 + 1) × (get_or names.new 2017 0 ≡ get_or names.old 2017 0) }
{
    let w = variable(text, names, at)?;
    let t = type_word(text, plain, w.end)?;
    Ok(Read {
        value: Head {
            label: own,
            binds: w,
            ty: t.value as u8,
            present: 0,
            word: 0,
        },
        behind: t.behind,
    })
}

// A heading that is a value.
fn value_head(text: &&[u8], own: Span, at: usize) -> Result<Read<Head>, Unread>
    ensures { (so : Sofar) → gave_head text.now.now so result ≡ R.typed TypeField.ValueType (named_by text.now.now own.first own.end) (length text.now.now) (from text.now.now at) so }
{
    let r = value(text, at)?;
    let v = r.value;
    Ok(Read {
        value: Head {
            label: own,
            binds: Span { first: 0, end: 0 },
            ty: v.ty,
            present: v.present,
            word: v.word,
        },
        behind: r.behind,
    })
}

// A variable and its type, a value, or neither.
fn typed(
    text: &&[u8],
    names: &mut [usize; 4034],
    f: TypeField,
    own: Span,
    at: usize,
) -> Result<Read<Head>, Unread>
    requires tables { Tables names.old 1008 }
    requires names_bound { get_or names.old 0 0 < 1008 }
    ensures { ((p : Past) → gave_head text.now.now (with_names p text.now.now names.new) result ≡ R.typed f (named_by text.now.now own.first own.end) (length text.now.now) (from text.now.now at) (with_names p text.now.now names.old)) × (length names.new ≡ 4034) × (get_or names.new 0 0 ≤ get_or names.old 0 0 + 1) × (get_or names.new 2017 0 ≡ get_or names.old 2017 0) }
{
    match f {
        TypeField::NoType => Ok(Read {
            value: Head {
                label: own,
                binds: Span { first: 0, end: 0 },
                ty: 0,
                present: 0,
                word: 0,
            },
            behind: at,
        }),
        TypeField::AnyType => binding(text, names, false, own, at),
        TypeField::PlainType => binding(text, names, true, own, at),
        TypeField::ValueType => value_head(text, own, at),
    }
}

// What stands between a kind's word and its children.
pub fn heading(
    text: &&[u8],
    names: &mut [usize; 4034],
    k: u8,
    f: TypeField,
    at: usize,
) -> Result<Read<Head>, Unread>
    requires tables { Tables names.old 1007 }
    requires f_value { f ≡ (fields_of k).ty }
    ensures { ((p : Past) → gave_head text.now.now (with_names p text.now.now names.new) result ≡ R.heading k (length text.now.now) (from text.now.now at) (with_names p text.now.now names.old)) × (length names.new ≡ 4034) × (get_or names.new 0 0 ≤ get_or names.old 0 0 + 1) × (get_or names.new 2017 0 ≤ get_or names.old 2017 0 + 1) }
{
    if k != 9 {
        return typed(text, names, f, Span { first: 0, end: 0 }, at);
    }
    let w = label(text, names, at)?;
    typed(text, names, f, w, w.end)
}
