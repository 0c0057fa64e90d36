ghost use Rattle.std.specs.Prelude.{◌≡◌};
ghost use Rattle.kinds.specs.Numbers.{lawful_year};

// Whether a value may hold for the year.
pub fn lawful_year(year: u16) -> bool
    ensures { result ≡ lawful_year year }
{
    (1900..=2100).contains(&year)
}
