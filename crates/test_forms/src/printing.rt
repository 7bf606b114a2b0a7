//! The table as a text.
use fr_forms::{Form, table};
use std::alloc::{AllocError, Global};

/// What is still to be said.
#[derive(Clone, Copy)]
enum Rest {
    Text(&'static str),
    Value(&'static Form),
}

/// More than the table has forms, and texts between them.
const MOST: usize = 1 << 20;

/// The forms of the scripts of all commands.
pub(crate) fn table_text(alloc: Global) -> Result<String, AllocError> {
    let mut said = String::new(alloc);
    let mut rest = Vec::new(alloc);
    rest.push(Rest::Text("}\n"))?;
    rest.push(Rest::Value(audit()))?;
    rest.push(Rest::Text(",\n\"audit\":"))?;
    rest.push(Rest::Value(simulate()))?;
    rest.push(Rest::Text(",\n\"simulate\":"))?;
    rest.push(Rest::Value(end()))?;
    rest.push(Rest::Text(",\n\"end\":"))?;
    rest.push(Rest::Value(apply()))?;
    rest.push(Rest::Text("{\"apply\":"))?;
    for _step in 0..MOST {
        match rest.pop() {
            Some(Rest::Text(text)) => said.push_str(text)?,
            Some(Rest::Value(form)) => put_form(&mut said, &mut rest, form)?,
            None => return Ok(said),
        }
    }
    Ok(said)
}

// (Each in a function of its own: a proof that names a table writes all of it out.)
fn audit() -> &'static Form {
    &table::AUDIT
}

fn simulate() -> &'static Form {
    &table::SIMULATE
}

fn end() -> &'static Form {
    &table::END
}

fn apply() -> &'static Form {
    &table::APPLY
}

fn asked() -> &'static Form {
    &table::ASKED
}

fn told() -> &'static Form {
    &table::TOLD
}

/// Says a form that holds no others; of another one it leaves to be said what is in it.
fn put_form(
    said: &mut String,
    rest: &mut Vec<Rest>,
    form: &'static Form,
) -> Result<(), AllocError> {
    match form {
        Form::Any => said.push_str("\"any\""),
        Form::Number(least, most) => write!(said, "[\"number\",{least},{most}]"),
        Form::OrZero(least, most) => write!(said, "[\"or zero\",{least},{most}]"),
        Form::Flag => said.push_str("[\"flag\"]"),
        Form::Text => said.push_str("[\"text\"]"),
        Form::Hex(most) => {
            if *most < usize::MAX {
                return write!(said, "[\"hex\",{most}]");
            }
            said.push_str("[\"hex\",null]")
        }
        Form::Object(members) => put_members(rest, "[\"object\",{", members),
        Form::OneOf(members) => put_members(rest, "[\"one of\",{", members),
        Form::Tuple(forms) => put_forms(rest, forms),
        Form::List(item) => put_one(rest, "[\"list\",", item),
        Form::Handed(_, part) => put_one(rest, "[\"part\",", part),
        Form::Ask => Ok(rest.push(Rest::Value(asked()))?),
        Form::Tell => Ok(rest.push(Rest::Value(told()))?),
        Form::OrNull(value) => put_one(rest, "[\"or null\",", value),
        Form::Optional(value) => put_one(rest, "[\"maybe\",", value),
        Form::Either(array, object) => {
            rest.push(Rest::Text("]"))?;
            rest.push(Rest::Value(object))?;
            rest.push(Rest::Text(",\n"))?;
            rest.push(Rest::Value(array))?;
            rest.push(Rest::Text("[\"either\","))?;
            Ok(())
        }
    }
}

fn put_one(
    rest: &mut Vec<Rest>,
    begins: &'static str,
    form: &'static Form,
) -> Result<(), AllocError> {
    rest.push(Rest::Text("]"))?;
    rest.push(Rest::Value(form))?;
    rest.push(Rest::Text(begins))?;
    Ok(())
}

/// What stands behind an item, if others follow it.
fn put_between(rest: &mut Vec<Rest>, behind: usize) -> Result<(), AllocError> {
    if behind == 0 {
        return Ok(());
    }
    rest.push(Rest::Text(",\n"))?;
    Ok(())
}

fn put_members(
    rest: &mut Vec<Rest>,
    begins: &'static str,
    members: &'static [(&'static str, Form)],
) -> Result<(), AllocError> {
    rest.push(Rest::Text("}]"))?;
    for (behind, (name, form)) in members.iter().rev().enumerate() {
        put_between(rest, behind)?;
        rest.push(Rest::Value(form))?;
        rest.push(Rest::Text("\":"))?;
        rest.push(Rest::Text(*name))?;
        rest.push(Rest::Text("\""))?;
    }
    rest.push(Rest::Text(begins))?;
    Ok(())
}

fn put_forms(rest: &mut Vec<Rest>, forms: &'static [Form]) -> Result<(), AllocError> {
    rest.push(Rest::Text("]]"))?;
    for (behind, form) in forms.iter().rev().enumerate() {
        put_between(rest, behind)?;
        rest.push(Rest::Value(form))?;
    }
    rest.push(Rest::Text("[\"tuple\",["))?;
    Ok(())
}
