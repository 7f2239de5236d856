// What every kind of cost answers. A cost is carried as a number of 32 bits.
ghost use Rattle.std.specs.Prelude.{◌≡◌};
ghost use Rattle.costs.specs.Meaning.{Meaning, Lawful};

// A kind of cost. Its meaning is `meaning`, and it keeps the laws; each function answers just the meaning.
pub trait Kind {
    ghost meaning: { Meaning };

    // Whether the number is a cost of this kind.
    fn is_cost(x: u32) -> bool
        ensures { result ≡ meaning.is_cost x };

    // Whether the first is no dearer than the second.
    fn no_dearer(a: u32, b: u32) -> bool
        ensures { result ≡ meaning.no_dearer a b };

    // What the two make, joined in this order.
    fn join(a: u32, b: u32) -> u32
        ensures { result ≡ meaning.join a b };

    // The cost of nothing.
    fn free() -> u32
        ensures { result ≡ meaning.free };

    // The cost that no other is dearer than.
    fn worst() -> u32
        ensures { result ≡ meaning.worst };

    // The kind's letter.
    fn letter() -> char
        ensures { result ≡ meaning.letter };

    // Whether trust scales the costs of a report's lines.
    fn scaled() -> bool
        ensures { result ≡ meaning.scaled };

    ghost lawful: { Lawful meaning };
}
