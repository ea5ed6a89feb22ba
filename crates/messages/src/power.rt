// Powers of two, which the numbers of entries of a mapping are.
ghost use Rattle.std.specs.Prelude.{◌≡◌};
ghost use Rattle.messages.specs.Settings.{is_power_of_two};

// Whether n is 1, 2, 4, 8, .. The library's test promises that one bit is set, and the rule speaks of powers.
pub fn is_power_of_two(n: u32) -> bool
    ensures { result ≡ is_power_of_two n }
{
    n.is_power_of_two()
}
