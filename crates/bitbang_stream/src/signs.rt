ghost use Rattle.std.specs.Prelude.{◌≡◌, IfOk, IfErr, Some, None};
ghost use Rattle.debug_model.specs.Signs.{sign_of};

use debug_model::Sign;
use thiserror::Error;

/// A byte that is no sign of the stream, kept here.
#[derive(Clone, Copy, Debug, PartialEq, Eq, Error)]
#[error("byte 0x{0:02x}")]
pub struct BadByte(pub u8);

/// What a byte of the stream means. Exactly the bytes that are no sign are refused.
///
/// Source: OpenOCD, remote_bitbang. That SRST does nothing is this project's choice.
pub fn classify(byte: u8) -> Result<Sign, BadByte>
    ensures sign { IfOk result (λ sign. sign_of byte ≡ Some sign) }
    ensures bad { IfErr result (λ bad. (bad.0 ≡ byte) × (sign_of byte ≡ None)) }
{
    match byte {
        b'0' => Ok(Sign::Pins(false, false, false)),
        b'1' => Ok(Sign::Pins(false, false, true)),
        b'2' => Ok(Sign::Pins(false, true, false)),
        b'3' => Ok(Sign::Pins(false, true, true)),
        b'4' => Ok(Sign::Pins(true, false, false)),
        b'5' => Ok(Sign::Pins(true, false, true)),
        b'6' => Ok(Sign::Pins(true, true, false)),
        b'7' => Ok(Sign::Pins(true, true, true)),
        b'R' => Ok(Sign::Ask),
        b'B' | b'b' => Ok(Sign::Light),
        b'r' | b's' => Ok(Sign::Reset(false)),
        b't' | b'u' => Ok(Sign::Reset(true)),
        b'Q' => Ok(Sign::Quit),
        _ => Err(BadByte(byte)),
    }
}

#[cfg(test)]
mod tests {
    use super::*;

    #[test]
    fn every_byte(rt: HostRuntime) {
        // OpenOCD's letters, and what each means; every other byte is no sign
        let letters: [(u8, Sign); 16] = [
            (b'0', Sign::Pins(false, false, false)),
            (b'1', Sign::Pins(false, false, true)),
            (b'2', Sign::Pins(false, true, false)),
            (b'3', Sign::Pins(false, true, true)),
            (b'4', Sign::Pins(true, false, false)),
            (b'5', Sign::Pins(true, false, true)),
            (b'6', Sign::Pins(true, true, false)),
            (b'7', Sign::Pins(true, true, true)),
            (b'B', Sign::Light),
            (b'Q', Sign::Quit),
            (b'R', Sign::Ask),
            (b'b', Sign::Light),
            (b'r', Sign::Reset(false)),
            (b's', Sign::Reset(false)),
            (b't', Sign::Reset(true)),
            (b'u', Sign::Reset(true)),
        ];
        for byte in 0..=u8::MAX {
            let mut wanted = Err(BadByte(byte));
            for (letter, sign) in letters {
                if letter == byte {
                    wanted = Ok(sign);
                }
            }
            assert_eq!(rt; classify(byte), wanted);
        }
        let text = format!(in rt.alloc(); "{}", BadByte(0x0a));
        assert!(rt; text.is_ok_and(|text| text.as_str() == "byte 0x0a"));
    }
}
