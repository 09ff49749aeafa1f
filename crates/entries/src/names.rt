// Names of points, for what is printed of them.
ghost use Rattle.entries.specs.Names.{Named};

// The name at the place of the point.
pub fn name<'a>(names: &[&'a str], point: usize) -> &'a str
    ensures { Named names.now point result }
{
    names.get(point).copied().unwrap_or("not named")
}
