// Clones and comparisons that tell the truth.
ghost use Rattle.std.specs.Prelude.{◌≡◌, IsTrue};

// A type whose clones never fail, and are the value itself.
pub trait ExactClone: Copy {
    ghost clone_is_same: { (x y : Self) → Self.is_infallible x × (Self.is_clone x y → y ≡ x) };
}

// A type whose `==` calls only the same value equal. (That a value equals itself is a law of `Eq`.)
pub trait ExactEq: Eq {
    ghost equal_is_same: { (x y : Self) → IsTrue (Self.eq x y) → x ≡ y };
}
