//! Why a transfer or a command failed, by Linux's names and numbers.
ghost use Rattle.std.specs.Prelude.{◌≡◌};
ghost use Rattle.i2c_base.specs.Errno.{number_of};

/// Why a transfer or a command failed, with Linux's names (fault-codes).
#[derive(Clone, Copy, Debug)]
pub enum Errno {
    /// A data byte was not acknowledged.
    Eio,
    /// Nobody acknowledged the address.
    Enxio,
    /// No open handle has this number.
    Ebadf,
    /// The address is taken: by a bound device, a mux chip, or something below the bus.
    Ebusy,
    /// The board has no such bus or device.
    Enodev,
    /// The handle has no address, or an offset is past the end.
    Einval,
    /// A block count was 0 or above the limit.
    Eproto,
    /// The error code of the bytes read was wrong.
    Ebadmsg,
    /// The adapter does no plain transfers.
    Eopnotsupp,
    /// A target held the clock too long, or a mux stayed with its other controller.
    Etimedout,
    /// A call on the port failed.
    Eremoteio,
}

impl Errno {
    /// Linux's number of this error.
    pub fn number(self) -> u8
        ensures { result ≡ number_of self }
    {
        match self {
            Errno::Eio => 5,
            Errno::Enxio => 6,
            Errno::Ebadf => 9,
            Errno::Ebusy => 16,
            Errno::Enodev => 19,
            Errno::Einval => 22,
            Errno::Eproto => 71,
            Errno::Ebadmsg => 74,
            Errno::Eopnotsupp => 95,
            Errno::Etimedout => 110,
            Errno::Eremoteio => 121,
        }
    }
}
