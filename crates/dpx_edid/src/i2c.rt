ghost use Rattle.std.specs.Prelude.{◌≡◌};
ghost use Rattle.dpx_edid.specs.I2c.{IsValid, encode_i2c};

use dpx_base::Bytes20;

/// A request of I2C over AUX to the device that holds the EDID (VESA DisplayPort 1.4a, I2C over AUX
/// transaction syntax). A read is valid where it asks for 1 to 16 bytes.
#[derive(Clone, Copy, Debug, PartialEq, Eq)]
pub enum I2c {
    /// Tells the device that it is to be read from its first byte on.
    Start,
    /// Asks for the next `length` bytes; `last` ends the I2C transaction.
    Read { length: u8, last: bool },
}

/// The bytes of the request on the AUX channel. The device is 50, and the offset that a start writes
/// is 0.
pub fn encode_i2c(request: &I2c) -> Bytes20
    requires { IsValid request.now }
    ensures { result ≡ encode_i2c request.now }
{
    match request {
        I2c::Start => Bytes20::from_slice(&[0x40, 0x00, 0x50, 0x00, 0x00]),
        I2c::Read { length, last } => {
            let command = if *last { 0x10 } else { 0x50 };
            Bytes20::from_slice(&[command, 0x00, 0x50, *length - 1])
        }
    }
}
