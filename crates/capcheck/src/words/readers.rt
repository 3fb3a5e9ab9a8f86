//! Reading the words after the program's name.

ghost use Rattle.std.specs.Prelude.{◌∷◌, IfSome, IfNone, codes, map};
ghost use Rattle.capcheck.specs.{declared.words.Order.Order, Orders.Asks};

use crate::words::Order;
use cap_program::{is_operand, take_option};

/// Reads the words after the program's name: the order that they spell, and `None` if they have
/// none of the program's forms.
pub fn read_words<'a>(words: &[&'a str]) -> Option<Order<'a>>
    ensures some { IfSome result (λ order. Asks (map (λ word. word.now) words.now) order) }
    ensures none { IfNone result ((order : Order) → Asks (map (λ word. word.now) words.now) order → ⊥) }
{
    let (command, operands) = words.split_first()?;
    match *command {
        "explain" => read_explain(operands),
        "round" => read_round(operands),
        "judge" => read_judge(operands),
        "vectors" => read_vectors(operands),
        _ => None,
    }
}

// Reads the words after `explain`.
fn read_explain<'a>(operands: &[&'a str]) -> Option<Order<'a>>
    ensures some { IfSome result (λ order. Asks (codes "explain" ∷ map (λ word. word.now) operands.now) order) }
    ensures none { IfNone result ((order : Order) → Asks (codes "explain" ∷ map (λ word. word.now) operands.now) order → ⊥) }
{
    let (memory, operands) = take_option("--memory", operands);
    let (tag, operands) = take_option("--tag", operands);
    match operands {
        [hex] if is_operand(hex) => Some(Order::Explain { memory, tag, hex }),
        _ => None,
    }
}

// Reads the words after `round`.
fn read_round<'a>(operands: &[&'a str]) -> Option<Order<'a>>
    ensures some { IfSome result (λ order. Asks (codes "round" ∷ map (λ word. word.now) operands.now) order) }
    ensures none { IfNone result ((order : Order) → Asks (codes "round" ∷ map (λ word. word.now) operands.now) order → ⊥) }
{
    match operands {
        [base, length] if is_operand(base) && is_operand(length) => {
            Some(Order::Round { base, length })
        }
        _ => None,
    }
}

// Reads the words after `judge`.
fn read_judge<'a>(operands: &[&'a str]) -> Option<Order<'a>>
    ensures some { IfSome result (λ order. Asks (codes "judge" ∷ map (λ word. word.now) operands.now) order) }
    ensures none { IfNone result ((order : Order) → Asks (codes "judge" ∷ map (λ word. word.now) operands.now) order → ⊥) }
{
    let (origins, operands) = take_option("--origins", operands);
    let file = match operands {
        [] => None,
        [file] if is_operand(file) => Some(*file),
        _ => return None,
    };
    Some(Order::Judge { origins, file })
}

// Reads the words after `vectors`.
fn read_vectors<'a>(operands: &[&'a str]) -> Option<Order<'a>>
    ensures some { IfSome result (λ order. Asks (codes "vectors" ∷ map (λ word. word.now) operands.now) order) }
    ensures none { IfNone result ((order : Order) → Asks (codes "vectors" ∷ map (λ word. word.now) operands.now) order → ⊥) }
{
    match operands {
        [file] if is_operand(file) => Some(Order::Vectors { file }),
        _ => None,
    }
}
