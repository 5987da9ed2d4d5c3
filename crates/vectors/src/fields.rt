// Single fields of JSON.
use ac_types::{
    FaultKind, ReadError, field, flag_field, list_field, read_named, required_identifier,
    required_name, required_port, text_field, whole_field,
};
use app_section::Port;
use scripts::{Page, Unread, number_of};
use serde_json::Value;
use std::fmt::Display;

/// Prints the number and the path of a fault.
pub fn print_fault(page: &mut Page, error: &ReadError) {
    if let Some(copy) = page.made(error.copy()) {
        page.tell(&copy);
    }
}

// The value of a field, or the fault that it has.
fn told<T: Display + Drop>(page: &mut Page, read: Result<T, ReadError>) {
    match read {
        Ok(value) => page.tell(&value),
        Err(error) => print_fault(page, &error),
    }
}

fn text(page: &mut Page, value: &Value, at: &str, name: &str) {
    match text_field(page.alloc(), value, at, name) {
        Ok(text) => page.put(text.unwrap_or("absent")),
        Err(error) => print_fault(page, &error),
    }
}

fn whole(page: &mut Page, value: &Value, at: &str, name: &str, max: u64) {
    match whole_field(page.alloc(), value, at, name, max) {
        Ok(Some(number)) => page.tell(&number),
        Ok(None) => page.put("absent"),
        Err(error) => print_fault(page, &error),
    }
}

fn name_of(page: &mut Page, value: &Value, at: &str, name: &str) {
    match required_name(page.alloc(), value, at, name) {
        Ok(name) => page.put(name.as_str()),
        Err(error) => print_fault(page, &error),
    }
}

fn identifier_of(page: &mut Page, value: &Value, at: &str, name: &str) {
    match required_identifier(page.alloc(), value, at, name) {
        Ok(name) => page.put(name.as_str()),
        Err(error) => print_fault(page, &error),
    }
}

fn print_ports(page: &mut Page, list: &[Value], name: &str) {
    match read_named::<Port>(page.alloc(), list, name, FaultKind::NameTwice) {
        Ok(ports) => page.tell_both(&ports.len(), &"ports"),
        Err(error) => print_fault(page, &error),
    }
}

// The ports of a list, whose path is its name alone.
fn ports(page: &mut Page, value: &Value, at: &str, name: &str) {
    match list_field(page.alloc(), value, at, name) {
        Ok(Some(list)) => print_ports(page, list, name),
        Ok(None) => page.put("0 ports"),
        Err(error) => print_fault(page, &error),
    }
}

// The field of that kind of the object at a path.
fn kind_answer(page: &mut Page, value: &Value, kind: &str, at: &str, name: &str) {
    match kind {
        "any" if field(value, name).is_some() => page.put("there"),
        "any" => page.put("absent"),
        "flag" => told(page, flag_field(page.alloc(), value, at, name)),
        "text" => text(page, value, at, name),
        "port" => told(page, required_port(page.alloc(), value, at, name)),
        "name" => name_of(page, value, at, name),
        "identifier" => identifier_of(page, value, at, name),
        "ports" => ports(page, value, at, name),
        _ => match kind.strip_prefix("whole-to-") {
            Some(max) => {
                let max = number_of(page, max);
                whole(page, value, at, name, max);
            }
            None => page.unread(Unread::Word),
        },
    }
}

/// `field KIND at PATH NAME JSON`: the field of that name, read as one of that kind, in the object at a path,
/// which may be `root`. Kinds are `any`, `flag`, `text`, `port`, `name`, `identifier`, `ports` and
/// `whole-to-MAX`.
pub fn field_answer(page: &mut Page, words: &[String]) {
    let [kind, _, path, name, json] = words else {
        return page.unread(Unread::Missing);
    };
    let path = match path.as_str() {
        "root" => "$",
        path => path,
    };
    if let Some(value) = page.read(Value::from_str(page.alloc(), json.as_str()), Unread::Text) {
        kind_answer(page, &value, kind.as_str(), path, name.as_str());
    }
}
