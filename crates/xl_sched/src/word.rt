// The words that a line may begin with.
ghost use Rattle.std.specs.Prelude.{◌≡◌};
ghost use Rattle.xl_sched.specs.Lies.{lie_word};
ghost use Rattle.xl_sched.specs.Words.{setting_word, event_word, other_event_word, is_declaration};

/// The words of lines at which nothing happens.
#[derive(Clone, Copy, PartialEq, Eq)]
pub enum SettingWord {
    Limit,
    Speak,
    Node,
    Liar,
    At,
    Name,
    Ledger,
}

impl SettingWord {
    pub fn of(token: &[u8]) -> Option<SettingWord>
        ensures { result ≡ setting_word token.now }
    {
        if token == b"limit".as_slice() {
            Some(SettingWord::Limit)
        } else if token == b"speak".as_slice() {
            Some(SettingWord::Speak)
        } else if token == b"node".as_slice() {
            Some(SettingWord::Node)
        } else if token == b"liar".as_slice() {
            Some(SettingWord::Liar)
        } else if token == b"at".as_slice() {
            Some(SettingWord::At)
        } else if token == b"name".as_slice() {
            Some(SettingWord::Name)
        } else if token == b"ledger".as_slice() {
            Some(SettingWord::Ledger)
        } else {
            None
        }
    }

    /// Whether its line may stand only before the first event.
    pub fn is_declaration(self) -> bool
        ensures { result ≡ is_declaration self }
    {
        match self {
            SettingWord::Limit | SettingWord::Speak | SettingWord::Node | SettingWord::Liar => true,
            SettingWord::At | SettingWord::Name | SettingWord::Ledger => false,
        }
    }
}

/// The words of events.
#[derive(Clone, Copy, PartialEq, Eq)]
pub enum EventWord {
    Issue,
    Submit,
    Timer,
    Timers,
    Deliver,
    All,
    Drop,
    Greet,
    Restart,
    Cut,
    Fail,
    Lie,
    Raw,
    Prefer,
    List,
    Heard,
}

impl EventWord {
    pub fn of(token: &[u8]) -> Option<EventWord>
        ensures { result ≡ event_word token.now }
    {
        if token == b"issue".as_slice() {
            Some(EventWord::Issue)
        } else if token == b"submit".as_slice() {
            Some(EventWord::Submit)
        } else if token == b"timer".as_slice() {
            Some(EventWord::Timer)
        } else if token == b"timers".as_slice() {
            Some(EventWord::Timers)
        } else if token == b"deliver".as_slice() {
            Some(EventWord::Deliver)
        } else if token == b"all".as_slice() {
            Some(EventWord::All)
        } else if token == b"drop".as_slice() {
            Some(EventWord::Drop)
        } else if token == b"greet".as_slice() {
            Some(EventWord::Greet)
        } else {
            EventWord::of_others(token)
        }
    }

    /// The word of an event that comes more seldom.
    fn of_others(token: &[u8]) -> Option<EventWord>
        ensures { result ≡ other_event_word token.now }
    {
        if token == b"restart".as_slice() {
            Some(EventWord::Restart)
        } else if token == b"cut".as_slice() {
            Some(EventWord::Cut)
        } else if token == b"fail".as_slice() {
            Some(EventWord::Fail)
        } else if token == b"lie".as_slice() {
            Some(EventWord::Lie)
        } else if token == b"raw".as_slice() {
            Some(EventWord::Raw)
        } else if token == b"prefer".as_slice() {
            Some(EventWord::Prefer)
        } else if token == b"list".as_slice() {
            Some(EventWord::List)
        } else if token == b"heard".as_slice() {
            Some(EventWord::Heard)
        } else {
            None
        }
    }
}

/// The words of what a liar says.
#[derive(Clone, Copy, PartialEq, Eq)]
pub enum LieWord {
    Proposal,
    Validation,
    Header,
    TxSet,
    Tx,
}

impl LieWord {
    pub fn of(token: &[u8]) -> Option<LieWord>
        ensures { result ≡ lie_word token.now }
    {
        if token == b"proposal".as_slice() {
            Some(LieWord::Proposal)
        } else if token == b"validation".as_slice() {
            Some(LieWord::Validation)
        } else if token == b"header".as_slice() {
            Some(LieWord::Header)
        } else if token == b"set".as_slice() {
            Some(LieWord::TxSet)
        } else if token == b"tx".as_slice() {
            Some(LieWord::Tx)
        } else {
            None
        }
    }
}
