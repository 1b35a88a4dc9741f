// A run in parts, each of which goes on with what the part before it left: how many instructions each of them has, and what the limit of the whole
// run has besides.
#![tactic(auto)]

ghost use Rattle.std.specs.Prelude.{◌≡◌, ◌+◌};
ghost use Rattle.replay_parts.specs.Parts.{is_refusal, parts_of, left_of, next_part, after_part, missing};

// How many instructions a part has; each run is made once with parts of each of these sizes.
pub const SIZES: [u32; 3] = [1, 7, 1000];

// How many parts of a size a run has at most; the next one has all that are left, which may be far more.
const MOST_OF_A_SIZE: u32 = 1000;

// Which word of a row is its limit, and which answer says that it was reached: only after this one a part follows.
pub const LIMIT: usize = 3;

pub const LIMIT_REACHED: u64 = 22;

// The refusals of entries over one row are among the numbers from 1 to this, which come to nothing else.
const LAST_REFUSAL: u64 = 9;

// Whether a call over one row that comes to this number is refused.
pub fn is_refusal(number: u64) -> bool
    ensures { result ≡ is_refusal number }
{
    1 <= number && number <= LAST_REFUSAL
}

// What is to come of a run.
#[derive(Clone, Copy)]
pub struct Parts {
    size: u32,
    // parts of this size
    more: u32,
    // instructions that no part has had
    left: u32,
}

impl Parts {
    // Of a run of so many instructions.
    pub fn new(size: u32, step: u32) -> Parts
        ensures { result ≡ parts_of size step }
    {
        Parts {
            size,
            more: MOST_OF_A_SIZE,
            left: step,
        }
    }

    // How many instructions the next part has. The last has none.
    #[tactic(auto, unfolding(crate::specs::Parts::next_part, crate::specs::Parts::after_part))]
    pub fn take(&mut self) -> u32
        ensures part { result ≡ next_part self.old }
        ensures parts_after { self.new ≡ after_part self.old }
        ensures together { left_of self.new + result ≡ left_of self.old }
    {
        let part = if self.more == 0 {
            self.left
        } else {
            self.size.min(self.left)
        };
        self.more = self.more.saturating_sub(1);
        self.left -= part;
        part
    }

    // How much a run in one adds to the limit besides, where the last part came to this number: nothing where it is refused.
    #[tactic(auto, unfolding(crate::specs::Parts::missing))]
    pub fn missing(self, number: u64) -> u64
        ensures { result ≡ missing number self }
    {
        if is_refusal(number) {
            0
        } else {
            u64::from(self.left)
        }
    }
}
