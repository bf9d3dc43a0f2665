//! The words of nodes and of facts' names, one row each.

ghost use Rattle.std.specs.Prelude.{◌≡◌, ◌≤◌, length};
ghost use Rattle.std.specs.Str.{bytes_eq};
ghost use Rattle.sc_deriv_text.specs.Words as spec;

/// The steps whose argument is one number.
#[derive(Clone, Copy)]
pub enum OneHead {
    Atom,
    EqRefl,
    SeqRefl,
}

/// The steps whose arguments are two numbers.
#[derive(Clone, Copy)]
pub enum TwoHead {
    All,
    Unit,
    Single,
    Unsingle,
    Differ,
}

/// The steps whose arguments are three numbers.
#[derive(Clone, Copy)]
pub enum ThreeHead {
    Op,
    Carry,
    Apart,
    Move,
    SetApart,
    EqStep,
    SeqStep,
}

/// What a node's first word says of it.
#[derive(Clone, Copy)]
pub enum Head {
    One(OneHead),
    Two(TwoHead),
    Three(ThreeHead),
    /// A step whose argument is a fact's name.
    Cut,
    /// A closing whose argument is a fact's name.
    Clash,
}

/// What the first word of a fact's name says of it.
#[derive(Clone, Copy)]
pub enum NameHead {
    Sign,
    In,
    Eq,
    Seq,
    Empty,
}

/// The word of a node.
pub fn head_word(head: Head) -> &'static str
    ensures text { result.now ≡ spec.head_word head }
    ensures short { length result.now ≤ 8 }
{
    match head {
        Head::One(OneHead::Atom) => "atom",
        Head::One(OneHead::EqRefl) => "eqrefl",
        Head::One(OneHead::SeqRefl) => "seqrefl",
        Head::Two(TwoHead::All) => "all",
        Head::Two(TwoHead::Unit) => "unit",
        Head::Two(TwoHead::Single) => "single",
        Head::Two(TwoHead::Unsingle) => "unsingle",
        Head::Two(TwoHead::Differ) => "differ",
        Head::Three(ThreeHead::Op) => "op",
        Head::Three(ThreeHead::Carry) => "carry",
        Head::Three(ThreeHead::Apart) => "apart",
        Head::Three(ThreeHead::Move) => "move",
        Head::Three(ThreeHead::SetApart) => "setapart",
        Head::Three(ThreeHead::EqStep) => "eqstep",
        Head::Three(ThreeHead::SeqStep) => "seqstep",
        Head::Cut => "cut",
        Head::Clash => "clash",
    }
}

/// The word of a fact's name.
pub fn name_word(head: NameHead) -> &'static str
    ensures text { result.now ≡ spec.name_word head }
    ensures short { length result.now ≤ 8 }
{
    match head {
        NameHead::Sign => "sign",
        NameHead::In => "in",
        NameHead::Eq => "eq",
        NameHead::Seq => "seq",
        NameHead::Empty => "empty",
    }
}

const HEADS: [Head; 17] = [
    Head::One(OneHead::Atom),
    Head::One(OneHead::EqRefl),
    Head::One(OneHead::SeqRefl),
    Head::Two(TwoHead::All),
    Head::Two(TwoHead::Unit),
    Head::Two(TwoHead::Single),
    Head::Two(TwoHead::Unsingle),
    Head::Two(TwoHead::Differ),
    Head::Three(ThreeHead::Op),
    Head::Three(ThreeHead::Carry),
    Head::Three(ThreeHead::Apart),
    Head::Three(ThreeHead::Move),
    Head::Three(ThreeHead::SetApart),
    Head::Three(ThreeHead::EqStep),
    Head::Three(ThreeHead::SeqStep),
    Head::Cut,
    Head::Clash,
];

const NAMES: [NameHead; 5] = [
    NameHead::Sign,
    NameHead::In,
    NameHead::Eq,
    NameHead::Seq,
    NameHead::Empty,
];

fn is_head(text: &[u8], head: Head) -> bool
    ensures { result ≡ bytes_eq (spec.head_word head) text.now }
{
    head_word(head).as_bytes() == text
}

fn is_name(text: &[u8], head: NameHead) -> bool
    ensures { result ≡ bytes_eq (spec.name_word head) text.now }
{
    name_word(head).as_bytes() == text
}

fn head_among(text: &[u8], heads: &[Head]) -> Option<Head>
    ensures { result ≡ spec.first_word spec.head_word heads.now text.now }
{
    for head in heads {
        if is_head(text, *head) {
            return Some(*head);
        }
    }
    None
}

fn name_among(text: &[u8], heads: &[NameHead]) -> Option<NameHead>
    ensures { result ≡ spec.first_word spec.name_word heads.now text.now }
{
    for head in heads {
        if is_name(text, *head) {
            return Some(*head);
        }
    }
    None
}

/// The kind of node whose word this is.
#[tactic(auto, unfolding(crate::specs::Words::head_of))]
pub fn head_of(text: &[u8]) -> Option<Head>
    ensures { result ≡ spec.head_of text.now }
{
    head_among(text, &HEADS)
}

/// The kind of name whose word this is.
#[tactic(auto, unfolding(crate::specs::Words::name_of))]
pub fn name_of(text: &[u8]) -> Option<NameHead>
    ensures { result ≡ spec.name_of text.now }
{
    name_among(text, &NAMES)
}
