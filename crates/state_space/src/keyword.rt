//! The words that no name can be. Each is spelled as its variant, in lower case.

ghost use Rattle.std.specs.Prelude.{◌≡◌, ℕ, List};
ghost use Rattle.state_space.specs.declared.keyword.Keyword.{Keyword};
ghost use Rattle.state_space.specs.Keywords.{spelling, statement_word, part_word, operator_word, keyword_of};

/// A word that the model language keeps for itself.
#[derive(Clone, Copy, Debug, PartialEq, Eq)]
pub enum Keyword {
    Kaos,
    Var,
    Domain,
    Rule,
    Goal,
    Obstacle,
    Refine,
    Obstruct,
    Conflict,
    Agent,
    Assign,
    Expect,
    Operation,
    Require,
    Operationalise,
    Trace,
    Bool,
    By,
    Using,
    Boundary,
    Monitors,
    Controls,
    To,
    Of,
    Dompre,
    Dompost,
    On,
    Pre,
    Trig,
    Post,
    Exact,
    Loop,
    Entails,
    Iff,
    Implies,
    Or,
    And,
    Until,
    Unless,
    Release,
    Within,
    Not,
    Next,
    Eventually,
    Always,
    In,
    True,
    False,
}

impl Keyword {
    /// The bytes that it is written with.
    pub fn spelling(self) -> &'static [u8]
        ensures { result.now ≡ spelling self }
    {
        match self {
            Keyword::Kaos => b"kaos",
            Keyword::Var => b"var",
            Keyword::Domain => b"domain",
            Keyword::Rule => b"rule",
            Keyword::Goal => b"goal",
            Keyword::Obstacle => b"obstacle",
            Keyword::Refine => b"refine",
            Keyword::Obstruct => b"obstruct",
            Keyword::Conflict => b"conflict",
            Keyword::Agent => b"agent",
            Keyword::Assign => b"assign",
            Keyword::Expect => b"expect",
            Keyword::Operation => b"operation",
            Keyword::Require => b"require",
            Keyword::Operationalise => b"operationalise",
            Keyword::Trace => b"trace",
            Keyword::Bool => b"bool",
            Keyword::By => b"by",
            Keyword::Using => b"using",
            Keyword::Boundary => b"boundary",
            Keyword::Monitors => b"monitors",
            Keyword::Controls => b"controls",
            Keyword::To => b"to",
            Keyword::Of => b"of",
            Keyword::Dompre => b"dompre",
            Keyword::Dompost => b"dompost",
            Keyword::On => b"on",
            Keyword::Pre => b"pre",
            Keyword::Trig => b"trig",
            Keyword::Post => b"post",
            Keyword::Exact => b"exact",
            Keyword::Loop => b"loop",
            Keyword::Entails => b"entails",
            Keyword::Iff => b"iff",
            Keyword::Implies => b"implies",
            Keyword::Or => b"or",
            Keyword::And => b"and",
            Keyword::Until => b"until",
            Keyword::Unless => b"unless",
            Keyword::Release => b"release",
            Keyword::Within => b"within",
            Keyword::Not => b"not",
            Keyword::Next => b"next",
            Keyword::Eventually => b"eventually",
            Keyword::Always => b"always",
            Keyword::In => b"in",
            Keyword::True => b"true",
            Keyword::False => b"false",
        }
    }
}

// A word that begins a statement, or the text.
#[tactic(auto, unfolding(crate::specs::Keywords::statement_word))]
fn statement_word(word: &[u8]) -> Option<Keyword>
    ensures { result ≡ statement_word word.now }
{
    if word == b"kaos".as_slice() {
        Some(Keyword::Kaos)
    } else if word == b"var".as_slice() {
        Some(Keyword::Var)
    } else if word == b"domain".as_slice() {
        Some(Keyword::Domain)
    } else if word == b"rule".as_slice() {
        Some(Keyword::Rule)
    } else if word == b"goal".as_slice() {
        Some(Keyword::Goal)
    } else if word == b"obstacle".as_slice() {
        Some(Keyword::Obstacle)
    } else if word == b"refine".as_slice() {
        Some(Keyword::Refine)
    } else if word == b"obstruct".as_slice() {
        Some(Keyword::Obstruct)
    } else if word == b"conflict".as_slice() {
        Some(Keyword::Conflict)
    } else if word == b"agent".as_slice() {
        Some(Keyword::Agent)
    } else if word == b"assign".as_slice() {
        Some(Keyword::Assign)
    } else if word == b"expect".as_slice() {
        Some(Keyword::Expect)
    } else if word == b"operation".as_slice() {
        Some(Keyword::Operation)
    } else if word == b"require".as_slice() {
        Some(Keyword::Require)
    } else if word == b"operationalise".as_slice() {
        Some(Keyword::Operationalise)
    } else if word == b"trace".as_slice() {
        Some(Keyword::Trace)
    } else {
        None
    }
}

// A word that stands inside a statement, outside its formulas.
#[tactic(auto, unfolding(crate::specs::Keywords::part_word))]
fn part_word(word: &[u8]) -> Option<Keyword>
    ensures { result ≡ part_word word.now }
{
    if word == b"bool".as_slice() {
        Some(Keyword::Bool)
    } else if word == b"by".as_slice() {
        Some(Keyword::By)
    } else if word == b"using".as_slice() {
        Some(Keyword::Using)
    } else if word == b"boundary".as_slice() {
        Some(Keyword::Boundary)
    } else if word == b"monitors".as_slice() {
        Some(Keyword::Monitors)
    } else if word == b"controls".as_slice() {
        Some(Keyword::Controls)
    } else if word == b"to".as_slice() {
        Some(Keyword::To)
    } else if word == b"of".as_slice() {
        Some(Keyword::Of)
    } else if word == b"dompre".as_slice() {
        Some(Keyword::Dompre)
    } else if word == b"dompost".as_slice() {
        Some(Keyword::Dompost)
    } else if word == b"on".as_slice() {
        Some(Keyword::On)
    } else if word == b"pre".as_slice() {
        Some(Keyword::Pre)
    } else if word == b"trig".as_slice() {
        Some(Keyword::Trig)
    } else if word == b"post".as_slice() {
        Some(Keyword::Post)
    } else if word == b"exact".as_slice() {
        Some(Keyword::Exact)
    } else if word == b"loop".as_slice() {
        Some(Keyword::Loop)
    } else {
        None
    }
}

// A word that stands in formulas and values.
#[tactic(auto, unfolding(crate::specs::Keywords::operator_word))]
fn operator_word(word: &[u8]) -> Option<Keyword>
    ensures { result ≡ operator_word word.now }
{
    if word == b"entails".as_slice() {
        Some(Keyword::Entails)
    } else if word == b"iff".as_slice() {
        Some(Keyword::Iff)
    } else if word == b"implies".as_slice() {
        Some(Keyword::Implies)
    } else if word == b"or".as_slice() {
        Some(Keyword::Or)
    } else if word == b"and".as_slice() {
        Some(Keyword::And)
    } else if word == b"until".as_slice() {
        Some(Keyword::Until)
    } else if word == b"unless".as_slice() {
        Some(Keyword::Unless)
    } else if word == b"release".as_slice() {
        Some(Keyword::Release)
    } else if word == b"within".as_slice() {
        Some(Keyword::Within)
    } else if word == b"not".as_slice() {
        Some(Keyword::Not)
    } else if word == b"next".as_slice() {
        Some(Keyword::Next)
    } else if word == b"eventually".as_slice() {
        Some(Keyword::Eventually)
    } else if word == b"always".as_slice() {
        Some(Keyword::Always)
    } else if word == b"in".as_slice() {
        Some(Keyword::In)
    } else if word == b"true".as_slice() {
        Some(Keyword::True)
    } else if word == b"false".as_slice() {
        Some(Keyword::False)
    } else {
        None
    }
}

/// The keyword that a word is, if it is one.
pub fn keyword_of(word: &[u8]) -> Option<Keyword>
    ensures { result ≡ keyword_of word.now }
{
    statement_word(word)
        .or_else(|| part_word(word))
        .or_else(|| operator_word(word))
}

/// The law of keywords: each is read from its spelling, and only from that.
pub fn law_of_keywords()
    ensures spelled { (k : Keyword) → keyword_of (spelling k) ≡ Some k }
    ensures only { (word : List ℕ) (k : Keyword) → keyword_of word ≡ Some k → word ≡ spelling k }
{}
