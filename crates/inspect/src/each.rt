// Items that are checked in rising order, up to the first fault.
ghost use Rattle.std.specs.Prelude.{◌≡◌, ℕ, ◌^◌, ◌≤◌, length, Option};
ghost use Rattle.layout.specs.Refusals.{Refusal, fault_of};
ghost use Rattle.inspect.specs.Faults.{first_fault};

// A check means the fault of each item, by its place.
pub(crate) trait Check {
    type Item;

    type Fault;

    ghost fault: { Self → ℕ → Self.Item → Option Refusal };

    ghost said: { Self.Fault → Refusal };

    fn check(&self, at: u32, item: &Self::Item) -> Result<(), Self::Fault>
        ensures { fault_of said result ≡ fault self.now at item.now };
}

pub(crate) fn check_each<C: Check>(check: &C, items: &[C::Item]) -> Result<(), C::Fault>
    requires { length items.now ≤ 2 ^ 32 }
    ensures { fault_of C.said result ≡ first_fault (C.fault check.now) 0 items.now }
{
    for (at, item) in items.iter().enumerate() {
        check.check(at as u32, item)?;
    }
    Ok(())
}
