//! What the definitions of the code obey.

ghost use Rattle.std.specs.Prelude.{◌≡◌, ◌<◌, All, Bool, List, ℕ};
ghost use Rattle.dpx_base.specs.Code.{IsSymbol, Codes, Coded};
ghost use Rattle.dpx_base.specs.declared.sym.Sym.{Sym};

/// No word stands for two symbols, and each is below 1024. So words have one list of symbols, from whichever
/// disparity; and from a disparity on, symbols have one list of words.
pub fn words_tell_symbols()
    ensures once { (s t : Sym) (plus other next last : Bool) (word : ℕ)
        → Codes s plus word next → Codes t other word last → s ≡ t }
    ensures fits { (s : Sym) (plus next : Bool) (word : ℕ) → Codes s plus word next → word < 1024 }
    ensures symbols { (from other end last : Bool) (ss tt : List Sym) (words : List ℕ) → Coded from ss words end
        → Coded other tt words last → ss ≡ tt }
    ensures words { (from end last : Bool) (ss : List Sym) (words others : List ℕ) → Coded from ss words end
        → Coded from ss others last → (words ≡ others) × (end ≡ last) }
    ensures there { (from : Bool) (ss : List Sym) → All IsSymbol ss
        → (words : List ℕ) × (end : Bool) × Coded from ss words end }
{}
