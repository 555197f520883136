ghost use Rattle.std.specs.Prelude.{◌≡◌, ◌≢◌, IfOk, IfErr};
ghost use Rattle.debug_model.specs.Chip.{answer_byte};

use debug_model::WireFault;

/// The bit of an answer to `R`. Exactly the bytes that are neither `0` nor `1` are refused, as `BadAnswer`.
///
/// Source: OpenOCD, remote_bitbang.
pub fn answer_bit(byte: u8) -> Result<bool, WireFault>
    ensures bit { IfOk result (λ bit. byte ≡ answer_byte bit) }
    ensures bad { IfErr result (λ fault. (fault ≡ WireFault.BadAnswer byte) × (byte ≢ 48) × (byte ≢ 49)) }
{
    match byte {
        b'0' => Ok(false),
        b'1' => Ok(true),
        _ => Err(WireFault::BadAnswer(byte)),
    }
}

#[cfg(test)]
mod tests {
    use super::*;

    #[test]
    fn every_answer(rt: HostRuntime) {
        for byte in 0..=u8::MAX {
            let wanted = if byte == 0x30 {
                Ok(false)
            } else if byte == 0x31 {
                Ok(true)
            } else {
                Err(WireFault::BadAnswer(byte))
            };
            assert_eq!(rt; answer_bit(byte), wanted);
        }
    }
}
