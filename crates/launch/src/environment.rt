// The environment of an app's programs.
ghost use Rattle.std.specs.Prelude.{◌≡◌, ◌++◌, IfOk, OnOk, map, option_map, string_bytes};
ghost use Rattle.launch.specs.LastValues.{kept_value_at, TakesValueOut};
ghost use Rattle.launch.specs.Environment.{has_variable, last_value, variable_if_unreserved, is_reserved_variable, path_name, default_path, search_path, default_path_if_unset, metadata_address, variables_from_manifest, variable_of, environment_of};

use crate::last_values::LastValues;
use crate::words::{with_variable, with_word};
use ac_types::NoMemory;
use app_section::EnvVar;
use spawner::Words;
use std::alloc::Global;

const APP_NAME: &str = "AC_APP_NAME";

const METADATA_URL: &str = "AC_METADATA_URL";

const PATH: &str = "PATH";

const DEFAULT_PATH: &str = "/usr/local/sbin:/usr/local/bin:/usr/sbin:/usr/bin:/sbin:/bin";

fn is_reserved(name: &str) -> bool
    ensures { result ≡ is_reserved_variable name.now }
{
    name == APP_NAME || name == METADATA_URL
}

// The last variable of the manifest that says where programs are searched.
fn last_path(variables: &[EnvVar]) -> Option<&EnvVar>
    ensures { option_map (λ v. v.now.value) result ≡ last_value path_name variables.now }
{
    let mut last = None;
    'variables: for variable in variables {
        if variable.name.as_str() == PATH {
            last = Some(variable);
        }
    }
    last
}

/// Where programs are searched: the last `PATH` of the manifest, or the usual places.
pub(crate) fn search_path(variables: &[EnvVar]) -> &str
    ensures { result.now ≡ search_path variables.now }
{
    match last_path(variables) {
        Some(variable) => variable.value.as_str(),
        None => DEFAULT_PATH,
    }
}

// The variable of this name with its last value, where it isn't there yet and isn't reserved.
fn with_first(
    alloc: Global,
    words: Words,
    name: &str,
    values: &mut LastValues,
) -> Result<Words, NoMemory>
    ensures words { IfOk result (λ longer. longer ≡ words ++ variable_if_unreserved name.now (kept_value_at values.old name.now)) }
    ensures rest { OnOk result (TakesValueOut name.now values.old values.new) }
{
    if is_reserved(name) {
        return Ok(words);
    }
    match values.take(name) {
        Some(value) => with_variable(alloc, words, name, value.as_str()),
        None => Ok(words),
    }
}

// What the manifest gives: each name where it first stands, with its last value.
fn given(alloc: Global, variables: &[EnvVar]) -> Result<Words, NoMemory>
    ensures { IfOk result (λ words. words ≡ map variable_of (variables_from_manifest variables.now)) }
{
    let mut values = LastValues::of(alloc, variables)?;
    let mut words = Words::new(alloc);
    'variables: for variable in variables {
        words = with_first(alloc, words, variable.name.as_str(), &mut values)?;
    }
    Ok(words)
}

fn has_path(variables: &[EnvVar]) -> bool
    ensures { result ≡ has_variable path_name variables.now }
{
    variables.iter().any(|v| v.name.as_str() == PATH)
}

// The usual places for programs, where the manifest says none.
fn with_usual_path(alloc: Global, words: Words, variables: &[EnvVar]) -> Result<Words, NoMemory>
    ensures { IfOk result (λ longer. longer ≡ words ++ default_path_if_unset variables.now) }
{
    if has_path(variables) {
        return Ok(words);
    }
    with_variable(alloc, words, PATH, DEFAULT_PATH)
}

fn metadata_url(alloc: Global, address: &str, token: &str) -> Result<String, NoMemory>
    ensures { IfOk result (λ url. string_bytes url ≡ metadata_address address.now token.now) }
{
    let mut url = String::from_str(alloc, "http://")?;
    url.push_str(address)?;
    url.push_str("/")?;
    url.push_str(token)?;
    Ok(url)
}

/// The environment of the app of this name, in a pod with this token: what its manifest gives, each
/// name once, without what is said of the app itself; the usual places for programs where the manifest
/// says none; the app's name; and where the metadata service at the address answers of the pod.
/// Refused only where memory ran out.
pub(crate) fn environment(
    alloc: Global,
    variables: &[EnvVar],
    app: &str,
    address: &str,
    token: &str,
) -> Result<Words, NoMemory>
    ensures { IfOk result (λ words. words ≡ environment_of variables.now app.now address.now token.now) }
{
    let words = given(alloc, variables)?;
    let words = with_usual_path(alloc, words, variables)?;
    let words = with_variable(alloc, words, APP_NAME, app)?;
    let url = metadata_url(alloc, address, token)?;
    with_variable(alloc, words, METADATA_URL, url.as_str())
}
