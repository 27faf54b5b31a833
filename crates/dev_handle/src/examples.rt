//! Worked examples, computed by the checker itself: each function has an empty body.

ghost use Rattle.std.specs.Prelude.{◌≡◌, true, false, Some, None, [], ◌∷◌, Ok, Err};
ghost use Rattle.i2c_base.specs.declared.errno.Errno.TheVariants.{Ebadf, Ebusy, Einval, Enodev};
ghost use Rattle.dev_handle.specs.Examples as example;
ghost use Rattle.dev_handle.specs.Handles.{answer_by_handle, changed, fresh, open_answer, opened, bus_and_force};
ghost use Rattle.dev_handle.specs.Handles.{slave_answer, slaved, target_of, with_pec};
ghost use Rattle.dev_handle.specs.Stored.{stored};
ghost use Rattle.dev_handle.specs.declared.fault.HandleFault.TheVariants.{Errno};

/// Before any is open, opened, with an address, and closed: a handle reaches somebody only where it is open and has an address.
pub fn a_handle_answers_as_it_stands()
    ensures none { answer_by_handle [] 0 target_of ≡ Err (Errno Ebadf) }
    ensures number { open_answer example.one_bus [] 0 ≡ Ok 0 }
    ensures opened { opened example.one_bus [] 0 ≡ example.only (fresh 0) }
    ensures no_address { answer_by_handle (example.only (fresh 0)) 0 target_of ≡ Err (Errno Einval) }
    ensures answer { answer_by_handle (example.only (fresh 0)) 0 (slave_answer example.one_bus 0x20 false) ≡ Ok tt }
    ensures address { changed (example.only (fresh 0)) 0 (slaved example.one_bus 0x20 false) ≡ example.only (example.at 0x20 false) }
    ensures target { answer_by_handle (example.only (example.at 0x20 false)) 0 target_of
        ≡ Ok (record { bus = 0; addr = 0x20; force = false; pec = false }) }
    ensures close { changed (example.only (example.at 0x20 false)) 0 (λ h. None) ≡ example.closed }
    ensures closed { answer_by_handle example.closed 0 target_of ≡ Err (Errno Ebadf) }
{}

/// EBADF comes before EINVAL and EBUSY, for a number that was closed and for one that was never given out.
pub fn a_number_that_is_not_open_is_told_before_all_else()
    ensures target { answer_by_handle example.closed 0 target_of ≡ Err (Errno Ebadf) }
    ensures busy { answer_by_handle example.closed 0 (slave_answer example.one_bus 0x48 false) ≡ Err (Errno Ebadf) }
    ensures never { answer_by_handle example.closed 5 bus_and_force ≡ Err (Errno Ebadf) }
    ensures changed { changed example.closed 0 (slaved example.one_bus 0x20 false) ≡ example.closed }
{}

/// ENODEV leaves the next number as it is.
pub fn a_bus_that_is_missing_uses_up_no_number()
    ensures answer { open_answer example.one_bus example.closed 7 ≡ Err (Errno Enodev) }
    ensures after { opened example.one_bus example.closed 7 ≡ example.closed }
    ensures next { open_answer example.one_bus example.closed 0 ≡ Ok 1 }
{}

/// A handle that is opened after another was closed has the next number, though it has the key of the other.
pub fn a_closed_number_is_never_open_again()
    ensures next { opened example.one_bus example.closed 0 ≡ None ∷ Some (fresh 0) ∷ [] }
    ensures closed { answer_by_handle (None ∷ Some (fresh 0) ∷ []) 0 bus_and_force ≡ Err (Errno Ebadf) }
    ensures open_one { answer_by_handle (None ∷ Some (fresh 0) ∷ []) 1 bus_and_force ≡ Ok (0, false) }
    ensures stored { stored example.key_given_again (0 ∷ 0 ∷ []) ≡ None ∷ Some (fresh 0) ∷ [] }
{}

/// The address of a bound device is busy, but for force.
pub fn force_reaches_a_bound_device()
    ensures busy { answer_by_handle (example.only (fresh 0)) 0 (slave_answer example.one_bus 0x48 false) ≡ Err (Errno Ebusy) }
    ensures forced { answer_by_handle (example.only (fresh 0)) 0 (slave_answer example.one_bus 0x48 true) ≡ Ok tt }
    ensures after { changed (example.only (fresh 0)) 0 (slaved example.one_bus 0x48 true) ≡ example.only (example.at 0x48 true) }
{}

/// A refused address leaves the address and the force of before; one that is set takes its own force.
pub fn a_refused_address_leaves_the_force()
    ensures refused { changed (example.only (example.at 0x48 true)) 0 (slaved example.one_bus 0x48 false)
        ≡ example.only (example.at 0x48 true) }
    ensures forced { answer_by_handle (example.only (example.at 0x48 true)) 0 bus_and_force ≡ Ok (0, true) }
    ensures set { changed (example.only (example.at 0x48 true)) 0 (slaved example.one_bus 0x20 false)
        ≡ example.only (example.at 0x20 false) }
    ensures not_forced { answer_by_handle (example.only (example.at 0x20 false)) 0 bus_and_force ≡ Ok (0, false) }
{}

/// Error codes stay on while another address is set, until they are turned off.
pub fn error_codes_are_told_until_they_are_turned_off()
    ensures on { answer_by_handle (changed (example.only (example.at 0x20 false)) 0 (with_pec true)) 0 target_of
        ≡ Ok (record { bus = 0; addr = 0x20; force = false; pec = true }) }
    ensures address { answer_by_handle
        (changed (changed (example.only (example.at 0x20 false)) 0 (with_pec true)) 0 (slaved example.one_bus 0x48 true)) 0 target_of
        ≡ Ok (record { bus = 0; addr = 0x48; force = true; pec = true }) }
    ensures off { changed (changed (example.only (example.at 0x20 false)) 0 (with_pec true)) 0 (with_pec false)
        ≡ example.only (example.at 0x20 false) }
{}
