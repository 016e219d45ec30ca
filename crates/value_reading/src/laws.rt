ghost use Rattle.std.specs.Prelude.{◌≡◌, ◌≤◌, ◌++◌, ℕ, List, pos, Some, codes};
ghost use Rattle.slint_base.specs.Numbers.{most_units};
ghost use Rattle.slint_literals.specs.Numbers.{number_value};
ghost use Rattle.slint_literals.specs.declared.numbers.Number.TheVariants as number;
ghost use Rattle.value_types.specs.declared.enums.EnumNames.{EnumNames};
ghost use Rattle.value_types.specs.declared.types.Ty.{Ty};
ghost use Rattle.value_types.specs.declared.values.Value.{Value};
ghost use Rattle.value_types.specs.Printed.{printed, printed_size};
ghost use Rattle.value_reading.specs.declared.parts.Part.{Part};
ghost use Rattle.value_reading.specs.Grammar.{IsValue};
ghost use Rattle.value_reading.specs.Grammar.{Reads};
ghost use Rattle.value_reading.specs.Reading.{value_of_parts};
ghost use Rattle.value_reading.specs.Typed.{HasType};

/// A law, which does nothing when it is called: what the reader finds in the parts of a text is exactly the value of which they are a
/// written form.
pub fn written_values_read()
    ensures read { (enums : List EnumNames) (ty : Ty) (parts : List Part) (v : Value) → IsValue enums ty parts v → value_of_parts enums ty parts ≡ Some v }
    ensures written { (enums : List EnumNames) (ty : Ty) (parts : List Part) (v : Value) → value_of_parts enums ty parts ≡ Some v → IsValue enums ty parts v }
{}

/// A law, which does nothing when it is called: a printed length, angle or percent that isn't below zero is read as the same number.
pub fn printed_numbers_read()
    ensures lengths { (n : ℕ) → n ≤ most_units → number_value (printed_size 3 n ++ codes "px") ≡ Some (number.Length (pos n)) }
    ensures angles { (n : ℕ) → n ≤ most_units → number_value (printed_size 3 n ++ codes "deg") ≡ Some (number.Angle (pos n)) }
    ensures percents { (n : ℕ) → n ≤ most_units → number_value (printed_size 6 n ++ codes "%") ≡ Some (number.Percent (pos n)) }
{}

/// A law, which does nothing when it is called: a printed value of a type that a property can have is read by the type as itself.
pub fn printed_values_read()
    ensures { (enums : List EnumNames) (ty : Ty) (v : Value) → HasType enums ty v → Reads enums ty (printed enums v) v }
{}
