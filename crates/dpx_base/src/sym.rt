ghost use Rattle.std.specs.Prelude.{◌≡◌};
ghost use Rattle.dpx_base.specs.Symbols.{data_symbol, control_symbol};

/// A main link symbol: a data byte, or a control character named by its byte.
#[derive(Clone, Copy, Debug, Default, PartialEq, Eq)]
pub struct Sym {
    pub control: bool,
    pub byte: u8,
}

impl Sym {
    pub fn data(byte: u8) -> Sym
        ensures { result ≡ data_symbol byte }
    {
        Sym {
            control: false,
            byte,
        }
    }

    pub fn control(byte: u8) -> Sym
        ensures { result ≡ control_symbol byte }
    {
        Sym {
            control: true,
            byte,
        }
    }
}
