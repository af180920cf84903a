//! Runs: words of one form with blanks between them, which are one literal.
ghost use Rattle.std.specs.Prelude.{◌≡◌, ◌<◌, ◌≤◌, length, IfSome};
ghost use Rattle.q_text.specs.Runs as spec;

use crate::forms::{Form, form_of};
use crate::kinds::NumberKind;
use crate::words::{Class, begins_word, span_end, word_at, word_end};
use q_values::LongKind;

/// Words that follow another.
#[derive(Clone, Copy)]
pub struct Extent {
    /// The number of words.
    pub count: usize,
    /// The offset just past the last of them.
    pub end: usize,
}

/// A run of words.
#[derive(Clone, Copy)]
pub struct Run {
    /// The kind of its numbers.
    pub kind: NumberKind,
    /// The number of its words.
    pub count: usize,
    /// The offset just past its last word.
    pub end: usize,
}

// Whether a word of the second form continues a run of the first.
fn goes_on(form: Form, other: Form) -> bool
    ensures { result ≡ spec.goes_on form other }
{
    match (form, other) {
        (Form::Whole, Form::Whole) => true,
        (Form::Special(kind), Form::Special(more)) => kind == more,
        (Form::Item(kind), Form::Item(more)) => kind == more,
        _ => false,
    }
}

fn goes_on_with(form: Form, next: Option<Form>) -> bool
    ensures { result ≡ spec.goes_on_with form next }
{
    match next {
        Some(other) => goes_on(form, other),
        None => false,
    }
}

/// The offset past any blanks at `end`.
pub fn next_start(text: &[u8], end: usize) -> usize
    requires { end ≤ length text.now }
    ensures value { result ≡ spec.next_start text.now end }
    ensures forward { end ≤ result }
    ensures within { result ≤ length text.now }
{
    span_end(Class::Blank, text, end)
}

// The offset just past the word that follows `end` and blanks.
fn next_end(text: &[u8], end: usize) -> usize
    requires { end ≤ length text.now }
    ensures value { result ≡ spec.next_end text.now end }
    ensures forward { end ≤ result }
    ensures within { result ≤ length text.now }
{
    word_end(text, next_start(text, end))
}

// The form of the word that follows `end` and at least one blank, if there is one.
#[tactic(auto, unfolding(crate::specs::Runs::next_form))]
fn next_form(text: &[u8], end: usize) -> Option<Form>
    requires { end ≤ length text.now }
    ensures { result ≡ spec.next_form text.now end }
{
    let offset = next_start(text, end);
    if end < offset && begins_word(text, offset) {
        form_of(word_at(text, offset))
    } else {
        None
    }
}

// The words after `end` that continue a run of the form.
fn followers(form: Form, text: &[u8], end: usize) -> Extent
    requires { end ≤ length text.now }
    ensures value { result ≡ spec.followers (length text.now) form text.now end }
    ensures forward { end ≤ result.end }
    ensures within { result.end ≤ length text.now }
    ensures bound { result.count ≤ length text.now }
{
    let mut last = end;
    let mut count = 0;
    while count < text.len() && goes_on_with(form, next_form(text, last)) {
        last = next_end(text, last);
        count += 1;
    }
    Extent { count, end: last }
}

fn is_whole(form: Option<Form>) -> bool
    ensures { result ≡ spec.is_whole form }
{
    match form {
        Some(Form::Whole) => true,
        Some(Form::Suffixed(_)) => true,
        _ => false,
    }
}

// The run of whole numbers whose first word is followed by these: only its last word may have a suffix.
fn whole_run(text: &[u8], plain: Extent) -> Run
    requires within { plain.end ≤ length text.now }
    requires bound { plain.count ≤ length text.now }
    ensures value { result ≡ spec.whole_run text.now plain }
    ensures forward { plain.end ≤ result.end }
    ensures within { result.end ≤ length text.now }
{
    let last = next_end(text, plain.end);
    match next_form(text, plain.end) {
        Some(Form::Suffixed(kind)) if !is_whole(next_form(text, last)) => Run {
            kind,
            count: plain.count + 2,
            end: last,
        },
        _ => Run {
            kind: NumberKind::Longs(LongKind::Long),
            count: plain.count + 1,
            end: plain.end,
        },
    }
}

// The run of words of one form whose first word is followed by these.
fn plain_run(kind: NumberKind, more: Extent) -> Run
    requires { more.count < 9223372036854775808 }
    ensures { result ≡ spec.plain_run kind more }
{
    Run {
        kind,
        count: more.count + 1,
        end: more.end,
    }
}

/// The run whose first word has this form and ends at `end`. `None` where a whole number follows a suffix.
#[tactic(auto, unfolding(crate::specs::Runs::run_of))]
pub fn run_of(form: Form, text: &[u8], end: usize) -> Option<Run>
    requires { end ≤ length text.now }
    ensures value { result ≡ spec.run_of form text.now end }
    ensures forward { IfSome result (λ run. end ≤ run.end) }
    ensures within { IfSome result (λ run. run.end ≤ length text.now) }
{
    match form {
        Form::Whole => Some(whole_run(text, followers(form, text, end))),
        Form::Suffixed(_) if is_whole(next_form(text, end)) => None,
        Form::Suffixed(kind) => Some(Run {
            kind,
            count: 1,
            end,
        }),
        Form::Special(kind) => Some(plain_run(kind, followers(form, text, end))),
        Form::Item(kind) => Some(plain_run(kind, followers(form, text, end))),
        Form::Row(kind) => Some(Run {
            kind,
            count: 1,
            end,
        }),
    }
}
