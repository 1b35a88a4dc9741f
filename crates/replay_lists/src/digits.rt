// Lowercase hexadecimal digits.
ghost use Rattle.std.specs.Prelude.{◌≡◌, ◌<◌, IfSome};
ghost use Rattle.replay_lists.specs.Digits.{digit_of};

pub const BASE: u64 = 16;

// 16^15: what is below it takes one digit more.
pub const ROOM_FOR_DIGIT: u64 = 0x1000_0000_0000_0000;

// What a digit stands for.
#[tactic(auto, unfolding(crate::specs::Digits::digit_of))]
pub fn digit(byte: u8) -> Option<u64>
    ensures value { result ≡ digit_of byte }
    ensures below_base { IfSome result (λ d. d < 16) }
{
    match byte {
        b'0'..=b'9' => Some(u64::from(byte - b'0')),
        b'a'..=b'f' => Some(u64::from(byte - b'a') + 10),
        _ => None,
    }
}
