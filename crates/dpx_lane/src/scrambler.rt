ghost use Rattle.std.specs.Prelude.{◌≡◌, ◌+◌, ◌*◌, ℕ, List, [], ◌∷◌, ◌++◌, IsTrue, bit_xor, if◌then◌else◌};
ghost use Rattle.dpx_base.specs.Key.{since_reset, scrambled, is_reset};
ghost use Rattle.dpx_base.specs.declared.sym.Sym.{Sym};
ghost use Rattle.dpx_lane.specs.Scrambling.{key_register, HasTaken};

use dpx_base::Sym;

// The register holds the next sixteen bits of the key, the first in bit 0.
const SEED: u16 = 0x17ff;

const RESET: u8 = 0x1c;

/// A lane's scrambler: it adds the key to data symbols, or takes it off.
#[derive(Clone, Copy, Drop)]
pub struct Scrambler {
    register: u16,
}

/// The register eight bits further on.
fn advanced(register: u16) -> u16
    ensures { (n : ℕ) → register ≡ key_register n → result ≡ key_register (n + 8) }
{
    let mixed = register ^ (register >> 3) ^ (register >> 4) ^ (register >> 5);
    (register >> 8) + (mixed % 256) * 256
}

/// The register behind a symbol.
#[tactic(auto, using(crate::proofs::KeyBytes::seed))]
fn register_after(register: u16, sym: Sym) -> u16
    ensures { (n : ℕ) → register ≡ key_register n → result ≡ key_register (if is_reset sym then 0 else n + 8) }
{
    if sym.control && sym.byte == RESET {
        SEED
    } else {
        advanced(register)
    }
}

fn combined(sym: Sym, key: u8) -> Sym
    ensures value { result ≡ (if sym.control then sym else record sym { byte = bit_xor sym.byte key }) }
    ensures kind { result.control ≡ sym.control }
    ensures control { IsTrue sym.control → result ≡ sym }
{
    if sym.control {
        sym
    } else {
        Sym {
            control: false,
            byte: sym.byte ^ key,
        }
    }
}

impl Scrambler {
    /// At the seed.
    pub fn new() -> Scrambler
        ensures { HasTaken result [] }
    {
        Scrambler { register: SEED }
    }

    /// The next symbol of a lane, with the key on it; or with the key taken off.
    pub fn next(&mut self, sym: Sym) -> Sym
        ensures value { (taken : List Sym) → HasTaken self.old taken → result ≡ scrambled (since_reset taken) sym }
        ensures state { (taken : List Sym) → HasTaken self.old taken → HasTaken self.new (taken ++ sym ∷ []) }
        ensures kind { result.control ≡ sym.control }
        ensures control { IsTrue sym.control → result ≡ sym }
    {
        let key = (self.register % 256) as u8;
        self.register = register_after(self.register, sym);
        combined(sym, key)
    }
}
