// What the cards keep and the calls answer, as the rules name it.
#![tactic(auto)]

ghost use Rattle.std.specs.Prelude.{◌≡◌};
ghost use Rattle.rules.specs.Counting.{count_or0};
ghost use Rattle.rules.specs.Groups.{read_vote, word_of};
ghost use Rattle.rules.specs.Refusals.{number_of};

// A vote, an output. RULES 1: "A vote is a count or none, and is kept as such". No `Option`: all definitions speak of these two cases.
#[derive(Clone, Copy)]
pub enum Vote {
    Count(u16),
    None,
}

impl Vote {
    // RULES 4.2: "An output a, or an M, at or above its modulus is none."
    pub fn read(m: u32, word: u16) -> Vote
        ensures { result ≡ read_vote m word }
    {
        if (word as u32) < m {
            Vote::Count(word)
        } else {
            Vote::None
        }
    }

    // The count, or 0 for none.
    pub fn count_or_0(self) -> u16
        ensures { result ≡ count_or0 self }
    {
        match self {
            Vote::Count(x) => x,
            Vote::None => 0,
        }
    }
}

// The word that a count or none is kept and sent as; `Vote::read` reads it back.
impl From<Vote> for u16 {
    ghost from_gives = { λ vote word. word ≡ word_of vote };

    fn from(vote: Vote) -> u16 {
        match vote {
            Vote::Count(x) => x,
            Vote::None => 65535,
        }
    }
}

// Why a call is refused. RULES 9.1 gives each reason its number.
#[derive(Clone, Copy)]
pub enum Refusal {
    Cards = 1,
    Broken = 2,
    Modulus = 3,
    Card = 4,
    Records = 5,
    Output = 6,
    Set = 7,
    Sent = 8,
    Lag = 9,
    Text = 10,
    Beat = 11,
}

impl From<Refusal> for u32 {
    ghost from_gives = { λ refusal number. number ≡ number_of refusal };

    fn from(refusal: Refusal) -> u32 {
        refusal as u32
    }
}
