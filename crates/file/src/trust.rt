// What trust makes of a line's cost.
ghost use Rattle.std.specs.Prelude.{◌≡◌};
ghost use Rattle.file.specs.Trust.{trusted};

use costs::Kind;

// The cost as trust has it.
pub(crate) fn trusted_cost<K: Kind>(cost: u32, trust: u8) -> u32
    ensures { result ≡ trusted K.meaning trust cost }
{
    let worst = K::worst();
    if !K::scaled() || cost == worst {
        return cost;
    }
    let nearest = (u64::from(cost) * u64::from(trust) + 8) / 16;
    if nearest > u64::from(u32::MAX - 1) {
        worst
    } else {
        nearest as u32
    }
}
