// Numbers of calls, from 0 on.
ghost use Rattle.std.specs.Prelude.{◌≡◌};
ghost use Rattle.mav_ports.specs.Calls as numbers;

// Whether the list holds the call's number.
pub(crate) fn is_listed(listed: &[u64], call: Option<u64>) -> bool
    ensures { result ≡ numbers.is_listed listed.now call }
{
    match call {
        Some(number) => listed.contains(&number),
        None => false,
    }
}

// The number of the call after this one.
pub(crate) fn call_after(call: Option<u64>) -> Option<u64>
    ensures { result ≡ numbers.call_after call }
{
    call?.checked_add(1)
}
