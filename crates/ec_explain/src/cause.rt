//! What may be wrong with a line or a text, in words.
ghost use Rattle.std.specs.Prelude.{◌≡◌};
ghost use Rattle.ec_explain.specs.Advice.{sentence, remedy};

/// What is wrong with a rejected line or text.
#[derive(Clone, Copy, Debug, PartialEq, Eq)]
pub enum Cause {
    /// It has more than 8192 bytes.
    Long,
    /// It begins with a byte order mark.
    Mark,
    /// It ends in a carriage return.
    Return,
    /// It has a tab.
    Tab,
    /// It is empty.
    Empty,
    /// It looks like a comment.
    Comment,
    /// It begins with a space.
    SpaceBefore,
    /// It ends with a space.
    SpaceAfter,
    /// It has two spaces in a row.
    TwoSpaces,
    /// The first line has a version that does not exist.
    OtherVersion,
    /// The first line does not say what the text is.
    NoHeader,
    /// It is the second line, and gives no limit.
    NoLimit,
    /// The limit is not exactly one word.
    LimitWords,
    /// The limit is no number.
    LimitNoNumber,
    /// The limit is 0.
    LimitZero,
    /// The limit is too large.
    LimitLarge,
    /// It is the third line, and names no workers.
    NoWorkers,
    /// A name is too long.
    LongName,
    /// A name is a reserved word.
    ReservedName,
    /// A word is no name.
    BadName,
    /// A name was used before.
    NameTaken,
    /// A word of a list is no worker.
    UnknownName,
    /// The number is out of its range.
    BadNumber,
    /// There are too many workers or objects.
    TooMany,
    /// A worker is in both lists.
    TwoRoles,
    /// It begins with a worker, and no line `run` came before it.
    EntryBeforeRun,
    /// Its first word begins no declaration.
    NoDeclaration,
    /// The words after the first make no declaration.
    DeclarationForm,
    /// It begins with no worker.
    NoWorker,
    /// Its second word is no act.
    NoAct,
    /// Version 1 has no `hand`.
    HandInOne,
    /// The act may not name this object, or it is not declared.
    NoObject,
    /// The value is no number.
    NoValue,
    /// The receiver of a `hand` is no worker.
    NoReceiver,
    /// No `=` follows the act.
    NoEquals,
    /// The word after `=` is no reply.
    NoReply,
    /// Words follow the reply.
    EntryWords,
    /// It is after the line `end`.
    AfterEnd,
    /// The worker has a pending call.
    Busy,
    /// The worker has no pending call.
    Idle,
    /// The worker of an entry lacks the right.
    NoRight,
    /// The count is at the limit.
    AtLimit,
    /// A component of a group's eventcount is not transferable.
    NotHandable,
    /// The receiver has a component of the eventcount already.
    AlreadySignals,
    /// The right reply is another.
    WrongReply,
    /// The text is empty.
    EmptyText,
    /// The last line has no LF.
    NoLastLf,
    /// The line `end` is missing.
    NoEnd,
    /// The text is too large.
    TooLarge,
    /// No line of a script has this form.
    ScriptForm,
    /// What follows `returns` in a history is no reply.
    ReplyWords,
    /// The second word of an event is neither `calls` nor `returns`.
    NoCallWord,
    /// The word after `calls` is no operation.
    NoOperation,
    /// The words after an operation do not suit it.
    CallWords,
    /// No declared eventcount and number follow the word `from`.
    FromForm,
    /// A declaration comes after a line `from`.
    AfterFrom,
    /// The first count of an eventcount is out of its range.
    FromRange,
    /// An event begins with no declared worker.
    UnknownWorker,
    /// A call names an object that is not declared.
    NotDeclared,
    /// The operation of a call is not one of its object.
    OtherSort,
    /// A history has a `pboth` and no line `both`.
    NoBoth,
    /// A word names nothing that is declared, or something of another kind.
    UnknownWord,
    /// A number is out of its range.
    OutOfRange,
    /// A bound of the text is exceeded.
    Full,
    /// The object belongs to a group.
    Hidden,
    /// A semaphore is named twice.
    TwoUses,
    /// The worker of a command or a call lacks the right.
    NoRole,
    /// The line is badly nested.
    BadNesting,
    /// The text stops too early.
    StopsEarly,
    /// The `from` lines are not in the order of the declarations.
    BadOrder,
    /// The worker calls while its call is pending.
    CallPending,
    /// The worker returns without a call.
    NoPendingCall,
    /// The reply does not suit the call.
    Unsuited,
    /// The limit is exceeded.
    CallLimit,
    /// The calls have no linearization.
    NoOrder,
    /// It is not decided whether the calls have a linearization.
    NotDecided,
    /// The schedule names a worker that has ended.
    TurnOfEnded,
    /// None of these.
    Other,
}

impl Cause {
    /// Returns one sentence that says what is wrong.
    pub fn sentence(self) -> &'static [u8]
        ensures { result.now ≡ sentence self }
    {
        match self {
            Cause::Long => b"The line has more than 8192 bytes.",
            Cause::Mark => b"The line begins with a byte order mark.",
            Cause::Return => b"The line ends in a carriage return.",
            Cause::Tab => b"The line has a tab.",
            Cause::Empty => b"The line is empty.",
            Cause::Comment => b"The line looks like a comment.",
            Cause::SpaceBefore => b"The line begins with a space.",
            Cause::SpaceAfter => b"The line ends with a space.",
            Cause::TwoSpaces => b"The line has two spaces in a row.",
            Cause::OtherVersion => b"There is no such version.",
            Cause::NoHeader => b"The first line does not say what the text is.",
            Cause::NoLimit => b"The second line gives the limit, and this one does not.",
            Cause::LimitWords => b"The limit is one number.",
            Cause::LimitNoNumber => b"The limit is no number.",
            Cause::LimitZero => b"The limit is 0.",
            Cause::LimitLarge => b"The limit is too large.",
            Cause::NoWorkers => b"The third line names the workers, and this one does not.",
            Cause::LongName => b"The name is too long.",
            Cause::ReservedName => b"The name is a word that the texts use themselves.",
            Cause::BadName => b"The word is no name.",
            Cause::NameTaken => b"A name was used before.",
            Cause::UnknownName => b"The word is not the name of a worker.",
            Cause::BadNumber => b"The number is out of its range.",
            Cause::TooMany => b"There are too many.",
            Cause::TwoRoles => b"A worker stands in both lists.",
            Cause::EntryBeforeRun =>
                b"The line begins with a worker, and no line run came before it.",
            Cause::NoDeclaration => b"The first word begins no declaration.",
            Cause::DeclarationForm => b"The line is not a whole declaration.",
            Cause::NoWorker => b"The first word is not the name of a worker.",
            Cause::NoAct => b"The second word is no act.",
            Cause::HandInOne => b"A text of version 1 has no hand.",
            Cause::NoObject =>
                b"The word after the act is no declared object that the act may name.",
            Cause::NoValue => b"The value is no number.",
            Cause::NoReceiver => b"The last word of the act is not the name of a worker.",
            Cause::NoEquals => b"The sign = is expected here.",
            Cause::NoReply => b"The word is no reply.",
            Cause::EntryWords => b"There are words after the reply.",
            Cause::AfterEnd => b"The line stands after the line end.",
            Cause::Busy => b"The act is refused: a call of the worker is under way.",
            Cause::Idle =>
                b"The act is refused: no call of the worker is under way, and go goes on with one.",
            Cause::NoRight => b"The act is refused: the worker lacks the right.",
            Cause::AtLimit => b"The act is refused: the count is at the limit.",
            Cause::NotHandable => b"The act is refused: the eventcount belongs to a group.",
            Cause::AlreadySignals =>
                b"The act is refused: the receiver signals the eventcount already.",
            Cause::WrongReply => b"The act has another reply.",
            Cause::EmptyText => b"The text is empty.",
            Cause::NoLastLf => b"The last line has no LF at its end.",
            Cause::NoEnd => b"The text stops before the line end.",
            Cause::TooLarge => b"The text has more than 67108864 bytes.",
            Cause::ScriptForm => b"No line of this form may stand here in a script.",
            Cause::ReplyWords => b"No reply follows the word returns.",
            Cause::NoCallWord => b"The second word is neither calls nor returns.",
            Cause::NoOperation => b"The third word is no operation.",
            Cause::CallWords => b"The words after the operation do not suit it.",
            Cause::FromForm => b"No declared eventcount and number follow the word from.",
            Cause::AfterFrom => b"Declarations come before the lines from.",
            Cause::FromRange => b"The first count is out of its range.",
            Cause::UnknownWorker => b"The first word is no declared worker.",
            Cause::NotDeclared => b"Nothing of this name is declared.",
            Cause::OtherSort => b"The operation takes no such object.",
            Cause::NoBoth => b"No line both says who may call pboth.",
            Cause::UnknownWord =>
                b"A word names nothing that is declared, or something of another sort.",
            Cause::OutOfRange => b"A number is out of its range.",
            Cause::Full => b"A bound is passed.",
            Cause::Hidden => b"The object belongs to a group, and may not be named by itself.",
            Cause::TwoUses => b"The line names one semaphore twice.",
            Cause::NoRole => b"The worker may not do this.",
            Cause::BadNesting => b"The line may not stand at this place of a block.",
            Cause::StopsEarly => b"The text stops too early.",
            Cause::BadOrder => b"The from lines are not in the order of the declarations.",
            Cause::CallPending => b"The worker calls, and its last call has not returned.",
            Cause::NoPendingCall => b"The worker returns, and has no pending call.",
            Cause::Unsuited => b"The reply does not suit the call.",
            Cause::CallLimit => b"The limit is passed.",
            Cause::NoOrder => b"The calls have no linearization.",
            Cause::NotDecided => b"It is not decided whether the calls have a linearization.",
            Cause::TurnOfEnded => b"The schedule has a turn of a worker that has ended.",
            Cause::Other => b"No line of this form may stand here.",
        }
    }

    /// Returns one sentence that says how to mend it.
    pub fn remedy(self) -> &'static [u8]
        ensures { result.now ≡ remedy self }
    {
        match self {
            Cause::Long => b"Look for a missing LF: a line has at most 8192 bytes.",
            Cause::Mark => b"Save the text without one.",
            Cause::Return => b"End each line with LF alone, for example by: tr -d '\\r'",
            Cause::Tab | Cause::TwoSpaces => b"Separate words by one space.",
            Cause::Empty => b"Remove it: a text has no empty lines.",
            Cause::Comment => b"Remove it: a text has no comments.",
            Cause::SpaceBefore => b"Remove the space: lines are not indented.",
            Cause::SpaceAfter => b"Remove the space.",
            Cause::OtherVersion =>
                b"The versions are evc-trace 1, evc-trace 2, evc-script 1, evc-script 2 and \
                  evc-calls 1.",
            Cause::NoHeader =>
                b"Begin a trace with evc-trace 1, a script with evc-script 1, a history of \
                  calls with evc-calls 1.",
            Cause::NoLimit | Cause::LimitWords =>
                b"Write the word limit and a number, as in: limit 100",
            Cause::LimitNoNumber =>
                b"Write it in digits, without a sign and without leading zeros.",
            Cause::LimitZero => b"Write 1 or more: it says how far each count may go.",
            Cause::LimitLarge =>
                b"It is at most 4294967295 in version 1, and at most 281474976710655 in version 2.",
            Cause::NoWorkers => b"Write the word workers and 1 to 16 names, as in: workers a b",
            Cause::LongName => b"A name has at most 16 letters, digits and underscores.",
            Cause::ReservedName => b"Choose another name.",
            Cause::BadName => b"A name is a letter, followed by letters, digits and underscores.",
            Cause::NameTaken =>
                b"Use each name once, name each worker once in a list, and give a worker one \
                  block.",
            Cause::UnknownName => b"Name the worker in the line of the workers, or mend the word.",
            Cause::BadNumber =>
                b"Cells, buffers and databases have 1 to 256 cells; a semaphore begins with 0 \
                  to 1000000.",
            Cause::TooMany =>
                b"A text has at most 16 workers, 32 eventcounts, 32 sequencers and 256 cells, \
                  those of groups among them.",
            Cause::TwoRoles => b"The two lists of a buffer or a database share no worker.",
            Cause::EntryBeforeRun => b"Write the line run after the last declaration.",
            Cause::NoDeclaration =>
                b"Write eventcount, sequencer, cells, buffer, database, semaphore or both; the \
                  line run ends the declarations.",
            Cause::DeclarationForm =>
                b"Name the object, then the workers in lists, as in: eventcount E signal a b \
                  observe c",
            Cause::NoWorker =>
                b"An entry is a worker, an act, the sign = and a reply, as in: a advance E = done",
            Cause::NoAct => b"The acts are advance, read, await, go, ticket, put, get and hand.",
            Cause::HandInOne => b"Write evc-trace 2 in the first line.",
            Cause::NoObject =>
                b"advance, read, await and hand name an eventcount, ticket a sequencer, put and \
                  get a cell, as in: X[0]",
            Cause::NoValue => b"Write at most 18 digits, without leading zeros.",
            Cause::NoReceiver =>
                b"Name the worker that is handed the component, as in: a hand E b = done",
            Cause::NoEquals => b"Write the act, one space, the sign =, one space, and the reply.",
            Cause::NoReply =>
                b"A reply is done, pending, or at most 18 digits without leading zeros.",
            Cause::EntryWords => b"Remove them: a line is one entry.",
            Cause::AfterEnd => b"Remove it: the line end is the last one.",
            Cause::Busy => b"Let the worker go on with that call by go, until it returns.",
            Cause::Idle => b"Begin a read or an await before it, or remove the line.",
            Cause::NoRight =>
                b"Name the worker in the list of the declaration: signal to advance, observe to \
                  read and await, take, write, read.",
            Cause::AtLimit => b"Raise the limit in the second line.",
            Cause::NotHandable =>
                b"Hand over components of eventcounts that a line eventcount declares.",
            Cause::AlreadySignals =>
                b"Hand the component to a worker that has none at that moment.",
            Cause::WrongReply =>
                b"Write the right reply; if the program recorded this one, the program or its \
                  record is wrong.",
            Cause::EmptyText =>
                b"Look whether the program that writes it ran, and wrote to this file.",
            Cause::NoLastLf => b"End each line with LF, also the last.",
            Cause::NoEnd =>
                b"Write the line end as the last one: it shows that the record is whole.",
            Cause::TooLarge => b"Record a shorter run.",
            Cause::ScriptForm =>
                b"Declarations come first, then blocks, each from worker a to end, then the \
                  lines schedule a b.",
            Cause::ReplyWords =>
                b"A reply is done, timeout, or a number without leading zeros; to a snapshot a \
                  number for each cell.",
            Cause::NoCallWord =>
                b"An event is as: a calls read E, or: a returns 1; the line end is the last \
                  one.",
            Cause::NoOperation =>
                b"The operations are advance, read, await, ticket, put, get, p, v, pboth, \
                  write, snapshot, produce and consume.",
            Cause::CallWords =>
                b"An object comes first; then await, put and produce have a number in digits, \
                  write numbers, pboth a second semaphore.",
            Cause::FromForm => b"Write the eventcount and its first count, as in: from E 3",
            Cause::AfterFrom => b"Move the line before the first line from.",
            Cause::FromRange =>
                b"It is at least 1 and at most the limit in the second line of the history.",
            Cause::UnknownWorker => b"Name it in the line of the workers, or mend the word.",
            Cause::NotDeclared => b"Declare it before the line run, or mend the word.",
            Cause::OtherSort =>
                b"advance, read and await take an eventcount, ticket a sequencer, put and get \
                  a cell as X[0], produce and consume a buffer, write and snapshot a database, \
                  p, v and pboth semaphores.",
            Cause::NoBoth => b"Write it after the semaphores, as in: both use a b",
            Cause::UnknownWord => b"Declare it or mend the word; a cell is written as: X[0]",
            Cause::OutOfRange =>
                b"A value is at most 999999999999999999; a snapshot has 1 to 1000 tries, a \
                  repeat 1 to 1000000; write has a value for each cell.",
            Cause::Full =>
                b"A text has at most 16 workers, 32 eventcounts, 32 sequencers and 256 cells; a \
                  script 4096 commands a worker, 65536 turns and 1048576 bytes.",
            Cause::Hidden =>
                b"Use the calls of the group: produce, consume, write, snapshot, p, v and pboth.",
            Cause::TwoUses => b"A pboth is of two semaphores that differ.",
            Cause::NoRole =>
                b"Name the worker in the list of the declaration that gives the right.",
            Cause::BadNesting =>
                b"Close a block by end before worker or schedule; a repeat has a command, and \
                  at most four stand in one another.",
            Cause::StopsEarly =>
                b"A script needs its line of workers and an end for each block and each repeat; \
                  a history of calls the line end.",
            Cause::BadOrder => b"Write them in that order, one for each eventcount at most.",
            Cause::CallPending =>
                b"Record the line returns of that call before it; each worker is one thread.",
            Cause::NoPendingCall => b"Record the line calls of the call before it.",
            Cause::Unsuited =>
                b"advance, put, v, p, pboth, write and produce return done, read, ticket, get and \
                  consume a number, snapshot a number for each cell.",
            Cause::CallLimit => b"Raise the limit in the second line of the history.",
            Cause::NoOrder => b"Look in the program for what these calls do; evc-draw draws them.",
            Cause::NotDecided =>
                b"Record puts of different values, and none of 0; of a buffer different items, and \
                  no pending consume.",
            Cause::TurnOfEnded => b"Remove the turn, or give the worker more commands.",
            Cause::Other => b"Look into docs/REFERENCE.md, or the manual page evc-trace.",
        }
    }
}
