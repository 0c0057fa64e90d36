ghost use Rattle.std.specs.Prelude.{◌≡◌, ◌-◌, ◌<◌, IfSome};
ghost use Rattle.relay.specs.Choice.{lowest_from, chosen};

// The lowest copy in the set that is at least `from` and below `to`.
fn lowest(set: u8, from: u8, to: u8) -> Option<u8>
    ensures value { result ≡ lowest_from set from (to - from) }
    ensures bound { IfSome result (λ k. k < to) }
{
    (from..to).find(|r| votes::has(set, *r))
}

// The lowest copy in the set at or above the turn, else the lowest in the set.
pub fn choose(copies: u8, set: u8, turn: u8) -> Option<u8>
    ensures value { result ≡ chosen copies set turn }
    ensures bound { IfSome result (λ k. k < copies) }
{
    lowest(set, turn, copies).or_else(|| lowest(set, 0, copies))
}
