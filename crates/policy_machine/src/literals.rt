//! The numbers that definitions read from the code, each against its literal, the classes in whole, and the key fields of PUT KEY.

ghost use Rattle.std.specs.Prelude.{◌≡◌, ℕ, List, [], ◌∷◌, ◌++◌, None, Some, map, replicate};
ghost use Rattle.std.specs.List.{range_with_len};
ghost use Rattle.policy_machine.specs.Prelude.{class_of, command_form, forms_of, general_rules, install_load, instructions_of, key_field, managed_extradition, managed_install, managed_selectable, managing, rules_before_form, sealed_size, status_of, statuses_of};
ghost use Rattle.policy_machine.specs.declared.class.Class.TheVariants.{Interindustry, Plain, Secure};
ghost use Rattle.policy_machine.specs.declared.channels.TheConstants.{CHANNELS};
ghost use Rattle.policy_machine.specs.declared.rule.Rule.TheVariants.{G, PS};
ghost use Rattle.policy_machine.specs.declared.rule.RulePS.TheVariants.{P, S};

/// How many channels there are.
pub fn constants()
    ensures channels { CHANNELS ≡ 4 }
{}

/// The class of each class byte from 00 to FF, and the instructions of each class.
pub fn classes()
    ensures class_bytes { map class_of (range_with_len 0 256)
        ≡ replicate 4 (Some Interindustry) ++ replicate 124 None ++ replicate 4 (Some Plain) ++ replicate 4 (Some Secure) ++ replicate 120 None }
    ensures interindustry { instructions_of Interindustry ≡ 0xA4 ∷ 0x70 ∷ 0xCA ∷ [] }
    ensures plain { instructions_of Plain ≡ 0xCA ∷ 0x50 ∷ 0xD8 ∷ 0xE2 ∷ 0xE4 ∷ 0xE6 ∷ 0xE8 ∷ 0xF0 ∷ 0xF2 ∷ [] }
    ensures secure { instructions_of Secure ≡ 0x82 ∷ 0xCA ∷ 0xD8 ∷ 0xE2 ∷ 0xE4 ∷ 0xE6 ∷ 0xE8 ∷ 0xF0 ∷ 0xF2 ∷ [] }
    ensures management { managing ≡ 0xD8 ∷ 0xE2 ∷ 0xE4 ∷ 0xE6 ∷ 0xE8 ∷ 0xF0 ∷ 0xF2 ∷ [] }
{}

/// The key field of PUT KEY for a key of each length.
pub fn key_fields()
    ensures enciphered { map sealed_size (16 ∷ 24 ∷ 32 ∷ []) ≡ 16 ∷ 32 ∷ 32 ∷ [] }
    ensures of_16 { (sealed check : List ℕ) → key_field (record { size = 16; sealed = sealed; check = check }) ≡ 0x88 ∷ 0x11 ∷ 0x10 ∷ sealed ++ 0x03 ∷ check }
    ensures of_24 { (sealed check : List ℕ) → key_field (record { size = 24; sealed = sealed; check = check }) ≡ 0x88 ∷ 0x21 ∷ 0x18 ∷ sealed ++ 0x03 ∷ check }
    ensures of_32 { (sealed check : List ℕ) → key_field (record { size = 32; sealed = sealed; check = check }) ≡ 0x88 ∷ 0x21 ∷ 0x20 ∷ sealed ++ 0x03 ∷ check }
{}

/// The status word of each rule.
pub fn status_words()
    ensures general { map (λ rule. status_of (G rule)) general_rules ≡ 0x6700 ∷ 0x6E00 ∷ 0x6881 ∷ 0x6D00 ∷ 0x6985 ∷ 0x6982 ∷ 0x6982 ∷ 0x6982 ∷ [] }
    ensures form { map status_of (PS P ∷ PS S ∷ []) ≡ 0x6A86 ∷ 0x6A80 ∷ [] }
    ensures before_form { map status_of (rules_before_form 0x82) ≡ 0x6985 ∷ [] }
    ensures own { map (λ ins. statuses_of (forms_of ins)) (0xA4 ∷ 0x70 ∷ 0xCA ∷ 0x50 ∷ 0x82 ∷ []) ≡ ((0x6A82 ∷ []) ∷ []) ∷ ((0x6A81 ∷ []) ∷ [])
        ∷ ((0x6A88 ∷ []) ∷ []) ∷ ((0x6985 ∷ 0x6985 ∷ 0x6A88 ∷ 0x6985 ∷ []) ∷ []) ∷ ((0x6300 ∷ 0x6982 ∷ []) ∷ []) ∷ [] }
    ensures managing { map (λ ins. statuses_of (forms_of ins)) (0xD8 ∷ 0xE2 ∷ 0xF2 ∷ []) ≡ ((0x6985 ∷ 0x6985 ∷ 0x6A88 ∷ 0x6A80 ∷ 0x6A80 ∷ 0x6A84 ∷ []) ∷ [])
        ∷ ((0x6985 ∷ 0x6985 ∷ 0x6A84 ∷ []) ∷ []) ∷ ((0x6985 ∷ 0x6985 ∷ 0x6A88 ∷ []) ∷ []) ∷ [] }
    ensures delete { statuses_of (forms_of 0xE4) ≡ (0x6985 ∷ 0x6985 ∷ 0x6A88 ∷ 0x6985 ∷ [])
        ∷ (0x6985 ∷ 0x6985 ∷ 0x6A88 ∷ 0x6985 ∷ 0x6982 ∷ 0x6985 ∷ 0x6A80 ∷ 0x6982 ∷ 0x6982 ∷ 0x6985 ∷ []) ∷ [] }
    ensures load { statuses_of (forms_of 0xE8) ≡ (0x6985 ∷ 0x6985 ∷ 0x6985 ∷ 0x6A86 ∷ 0x6A80 ∷ 0x6A84 ∷ 0x6A80 ∷ 0x6A80 ∷ 0x6982 ∷ 0x6985 ∷ []) ∷ [] }
    ensures set_status { statuses_of (forms_of 0xF0) ≡ (0x6985 ∷ 0x6985 ∷ 0x6985 ∷ 0x6982 ∷ [])
        ∷ (0x6985 ∷ 0x6985 ∷ 0x6A88 ∷ 0x6985 ∷ 0x6982 ∷ 0x6985 ∷ []) ∷ [] }
    ensures install { statuses_of (forms_of 0xE6) ≡ statuses_of (command_form managed_install ∷ command_form managed_selectable ∷ (command_form managed_extradition) ∷ install_load ∷ []) }
    ensures for_install { map status_of (command_form managed_install).rules
        ≡ 0x6985 ∷ 0x6985 ∷ 0x6982 ∷ 0x6A88 ∷ 0x6982 ∷ 0x6A80 ∷ 0x6A80 ∷ 0x6982 ∷ 0x6A84 ∷ 0x6A80 ∷ 0x6982 ∷ 0x6982 ∷ 0x6985 ∷ [] }
    ensures for_make_selectable { map status_of (command_form managed_selectable).rules
        ≡ 0x6985 ∷ 0x6985 ∷ 0x6982 ∷ 0x6A88 ∷ 0x6982 ∷ 0x6985 ∷ 0x6A80 ∷ 0x6A80 ∷ 0x6982 ∷ 0x6982 ∷ 0x6985 ∷ [] }
    ensures for_extradition { map status_of (command_form managed_extradition).rules
        ≡ 0x6985 ∷ 0x6985 ∷ 0x6982 ∷ 0x6A88 ∷ 0x6985 ∷ 0x6982 ∷ 0x6985 ∷ 0x6985 ∷ 0x6982 ∷ 0x6A80 ∷ 0x6982 ∷ 0x6982 ∷ 0x6985 ∷ [] }
    ensures for_load { map status_of install_load.rules
        ≡ 0x6985 ∷ 0x6985 ∷ 0x6982 ∷ 0x6985 ∷ 0x6A80 ∷ 0x6A88 ∷ 0x6982 ∷ 0x6A80 ∷ 0x6A84 ∷ 0x6A80 ∷ 0x6982 ∷ 0x6982 ∷ [] }
{}
