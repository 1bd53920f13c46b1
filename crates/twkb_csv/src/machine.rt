//! The next state of a reader of CSV after a byte.
ghost use Rattle.std.specs.Prelude.{◌≡◌, ℕ};
ghost use Rattle.csv.specs.Machine as csv_machine;
ghost use Rattle.twkb_csv.specs.Machine.{action_of, config, state_of};

// Where a reader stands in a record.
#[derive(Clone, Copy, PartialEq, Eq)]
pub(crate) enum State {
    // Before a record.
    StartRecord,
    // After a delimiter.
    StartField,
    // In a field without quotes.
    InField,
    // Between the quotes of a field.
    InQuoted,
    // After the second quote of a field, which may be the first of two.
    AfterQuote,
    // After the CR that ended a record.
    AfterCr,
}

// What a byte does.
#[derive(Clone, Copy, PartialEq, Eq)]
pub(crate) enum Action {
    // Nothing.
    Skip,
    // It joins the field.
    Copy,
    // It ends the field, and another one follows.
    EndField,
    // It ends the last field of the record.
    EndRecord,
}

// The state and the action after a byte in a field without quotes, with fields separated by
// `delimiter` (RFC 4180; CR alone ends a record too).
#[inline(always)]
fn in_field(byte: u8, delimiter: u8) -> (State, Action)
    ensures { (state_of result.0, action_of result.1) ≡ csv_machine.in_field (config delimiter) byte }
{
    if byte == delimiter {
        return (State::StartField, Action::EndField);
    }
    match byte {
        b'\r' => (State::AfterCr, Action::EndRecord),
        b'\n' => (State::StartRecord, Action::EndRecord),
        _ => (State::InField, Action::Copy),
    }
}

// The state and the action after a byte at the start of a record.
#[inline(always)]
fn at_start(byte: u8, delimiter: u8) -> (State, Action)
    ensures { (state_of result.0, action_of result.1)
        ≡ csv_machine.step (config delimiter) (state_of State.StartRecord) byte }
{
    match byte {
        b'\r' | b'\n' => (State::StartRecord, Action::Skip),
        b'"' => (State::InQuoted, Action::Skip),
        _ => in_field(byte, delimiter),
    }
}

// The state and the action after a byte between the quotes of a field.
#[inline(always)]
fn in_quotes(byte: u8) -> (State, Action)
    ensures { (delimiter : ℕ) → (state_of result.0, action_of result.1)
        ≡ csv_machine.step (config delimiter) (state_of State.InQuoted) byte }
{
    if byte == b'"' {
        (State::AfterQuote, Action::Skip)
    } else {
        (State::InQuoted, Action::Copy)
    }
}

// The state and the action after a byte in a state, with fields separated by `delimiter`, as the
// machine of `csv` has them.
#[inline(always)]
pub(crate) fn next_state(state: State, byte: u8, delimiter: u8) -> (State, Action)
    ensures { (state_of result.0, action_of result.1) ≡ csv_machine.step (config delimiter) (state_of state) byte }
{
    match state {
        State::StartRecord => at_start(byte, delimiter),
        State::StartField if byte == b'"' => (State::InQuoted, Action::Skip),
        State::StartField | State::InField => in_field(byte, delimiter),
        State::InQuoted => in_quotes(byte),
        State::AfterQuote if byte == b'"' => (State::InQuoted, Action::Copy),
        State::AfterQuote => in_field(byte, delimiter),
        State::AfterCr if byte == b'\n' => (State::StartRecord, Action::Skip),
        State::AfterCr => at_start(byte, delimiter),
    }
}
