//! Which lines a transcript may have from the first fault on.

/// What the lines so far say of the connector.
#[derive(Clone, Copy, PartialEq, Eq)]
pub enum State {
    /// No fault was met: each line is the worked one.
    AsWorked,
    /// It is open and has a position; its file, position or record area may differ from the worked ones.
    Positioned,
    /// It is open, and its position is invalid.
    WithoutPosition,
    /// A change has failed.
    Failed,
    Closed,
}

/// How it was opened last.
#[derive(Clone, Copy)]
pub enum Mode {
    Input,
    Output,
    InputOutput,
}

/// The verb of a line.
#[derive(Clone, Copy)]
pub enum Verb {
    Open(Mode),
    Close,
    Read,
    ReadNext,
    Start,
    Write,
    Rewrite,
    Delete,
    /// One that is judged only where no fault was met.
    Other,
}

#[derive(Clone, Copy)]
pub struct Connector {
    pub state: State,
    pub mode: Mode,
}

/// A fault that a run meets.
#[derive(Clone, Copy)]
pub struct Fault {
    /// What the statement that meets it answers.
    pub answer: &'static str,
    /// Whether another one may meet it too.
    pub again: bool,
}

/// What an OPEN may find.
#[derive(Clone, Copy)]
pub struct Found {
    /// There may be no file.
    pub absent: bool,
    /// There may be one whose change was not finished.
    pub refused: bool,
}

/// A line of a transcript, beside that of the worked deck.
#[derive(Clone, Copy)]
pub struct Line<'a> {
    pub verb: Verb,
    /// The status, and the record that is delivered.
    pub answer: &'a str,
    pub worked: &'a str,
}

const VERBS: [(&str, Verb); 10] = [
    ("OPEN INPUT", Verb::Open(Mode::Input)),
    ("OPEN OUTPUT", Verb::Open(Mode::Output)),
    ("OPEN I-O", Verb::Open(Mode::InputOutput)),
    ("CLOSE", Verb::Close),
    ("READ", Verb::Read),
    ("READ NEXT", Verb::ReadNext),
    ("START", Verb::Start),
    ("WRITE", Verb::Write),
    ("REWRITE", Verb::Rewrite),
    ("DELETE", Verb::Delete),
];

/// The verb of this name.
pub fn verb_of(text: &str) -> Verb {
    for (name, verb) in &VERBS {
        if *name == text {
            return *verb;
        }
    }
    Verb::Other
}

/// Whether a status is one of these.
pub fn is_one_of(status: &str, statuses: &[&str]) -> bool {
    for other in statuses {
        if *other == status {
            return true;
        }
    }
    false
}

/// The state, if the status is one of these.
fn where_one_of(status: &str, statuses: &[&str], state: State) -> Option<State> {
    if is_one_of(status, statuses) {
        Some(state)
    } else {
        None
    }
}

/// What a verb answers that the mode does not permit, in dynamic access.
fn refusal(mode: Mode, verb: Verb) -> Option<&'static str> {
    match (verb, mode) {
        (Verb::Open(_), _) => Some("41"),
        (Verb::Read | Verb::ReadNext | Verb::Start, Mode::Output) => Some("47"),
        (Verb::Write, Mode::Input) => Some("48"),
        (Verb::Rewrite | Verb::Delete, Mode::Input | Mode::Output) => Some("49"),
        _ => None,
    }
}

/// After a statement that met a fault.
fn after_fault(verb: Verb) -> State {
    match verb {
        Verb::Read | Verb::ReadNext | Verb::Start => State::WithoutPosition,
        Verb::Write | Verb::Rewrite | Verb::Delete => State::Failed,
        _ => State::Closed,
    }
}

/// After a statement on a connector that has failed.
fn after_failed(verb: Verb, answer: &str) -> Option<State> {
    match verb {
        Verb::Close => where_one_of(answer, &["30"], State::Closed),
        Verb::Open(_) => where_one_of(answer, &["41"], State::Failed),
        Verb::Other => None,
        _ => where_one_of(answer, &["92"], State::Failed),
    }
}

/// After an OPEN of one that is closed.
fn after_opening(mode: Mode, answer: &str, fault: Fault, found: Found) -> Option<State> {
    if answer == "00" {
        return Some(State::Positioned);
    }
    let (absent, refused) = match mode {
        Mode::Output => (false, false),
        _ => (found.absent, found.refused),
    };
    if absent && answer == "35" || refused && answer == "91" {
        return Some(State::Closed);
    }
    if fault.again {
        where_one_of(answer, &[fault.answer], State::Closed)
    } else {
        None
    }
}

/// After a statement on one that is closed.
fn after_closed(verb: Verb, answer: &str, fault: Fault, found: Found) -> Option<State> {
    match verb {
        Verb::Open(mode) => after_opening(mode, answer, fault, found),
        Verb::Read | Verb::ReadNext | Verb::Start => {
            where_one_of(answer, &["47"], State::Closed)
        }
        Verb::Write => where_one_of(answer, &["48"], State::Closed),
        Verb::Rewrite | Verb::Delete => where_one_of(answer, &["49"], State::Closed),
        Verb::Close => where_one_of(answer, &["42"], State::Closed),
        Verb::Other => None,
    }
}

/// After a READ or START by the statuses of one that found a record, or after that of one that found none.
fn after_reading(status: &str, found: &[&str], missed: &str) -> Option<State> {
    if status == missed {
        Some(State::WithoutPosition)
    } else {
        where_one_of(status, found, State::Positioned)
    }
}

/// After a statement that the mode permits, on one that is open and has met a fault, by the status that it
/// answers.
fn after_open(state: State, verb: Verb, status: &str) -> Option<State> {
    match verb {
        Verb::Close => where_one_of(status, &["00"], State::Closed),
        Verb::ReadNext if state == State::WithoutPosition => {
            where_one_of(status, &["46"], state)
        }
        Verb::ReadNext => after_reading(status, &["00", "02"], "10"),
        Verb::Read => after_reading(status, &["00", "02"], "23"),
        Verb::Start => after_reading(status, &["00"], "23"),
        Verb::Write => where_one_of(status, &["00", "02", "22"], state),
        Verb::Rewrite => where_one_of(status, &["00", "02", "22", "23"], state),
        Verb::Delete => where_one_of(status, &["00", "23"], state),
        Verb::Open(_) | Verb::Other => None,
    }
}

/// The status of an answer.
fn status_of(answer: &str) -> &str {
    match answer.split_once(" ") {
        Some((status, _)) => status,
        None => answer,
    }
}

/// After a statement that the mode permits, where it may be the fault's.
fn after_permitted(state: State, line: Line, fault: Fault) -> Option<State> {
    let is_46 = matches!(line.verb, Verb::ReadNext) && state == State::WithoutPosition;
    if !is_46 && fault.again && line.answer == fault.answer {
        return Some(after_fault(line.verb));
    }
    after_open(state, line.verb, status_of(line.answer))
}

/// After a statement on one that is open and has met a fault.
fn after_astray(connector: Connector, line: Line, fault: Fault) -> Option<State> {
    match refusal(connector.mode, line.verb) {
        Some(refused) => where_one_of(line.answer, &[refused], connector.state),
        None => after_permitted(connector.state, line, fault),
    }
}

/// After a statement on one that has met no fault.
fn after_worked(line: Line, fault: Fault) -> Option<State> {
    if line.answer == line.worked {
        return Some(State::AsWorked);
    }
    where_one_of(line.answer, &[fault.answer], after_fault(line.verb))
}

/// After a statement with this line; none where it may not have it.
pub fn after(connector: Connector, line: Line, fault: Fault, found: Found) -> Option<Connector> {
    let state = match connector.state {
        State::AsWorked => after_worked(line, fault),
        State::Failed => after_failed(line.verb, line.answer),
        State::Closed => after_closed(line.verb, line.answer, fault, found),
        State::Positioned | State::WithoutPosition => after_astray(connector, line, fault),
    };
    let mode = match line.verb {
        Verb::Open(mode) if line.answer == "00" => mode,
        _ => connector.mode,
    };
    Some(Connector {
        state: state?,
        mode,
    })
}
