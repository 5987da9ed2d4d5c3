//! A law of the metadata service, the contract of a function: what the beginnings of a request are answered with.
#![tactic(auto)]

ghost use Rattle.std.specs.Prelude.{◌≡◌, ◌<◌, ◌≤◌, ℕ, List, length, Option, Some, None};
ghost use Rattle.httparse.specs.Grammar.{RequestHead, print_request};
ghost use Rattle.metadata_request.specs.declared.request.Request.{Request};
ghost use Rattle.metadata_reply.specs.Answers.{answer_of, refused};
ghost use Rattle.metadata_reply.specs.Views.{ViewData};
ghost use Rattle.metadata_laws.specs.Cuts.{IsCut, with_bad_body, reply_to};

/// Each proper beginning of an input that is exactly one head and its body, and that is answered with 200, is
/// answered with 400: it is no request, or the same one with a bad body. That holds too with another key, and
/// whichever pod is found for the token then. Where none is found any more, a beginning with the whole head is
/// answered with 404.
pub fn cut_requests()
    ensures cut { (whole front : List ℕ) (h : RequestHead) (request : Request) (read : Option Request)
        (pod : Option ViewData) (key : List ℕ)
        → IsCut whole front h request read → (answer_of request pod key).status ≡ 200
        → reply_to read pod key ≡ refused 400 }
    ensures later { (whole front : List ℕ) (h : RequestHead) (request : Request) (read : Option Request)
        (pod : Option ViewData) (key : List ℕ) (other : ViewData) (other_key : List ℕ)
        → IsCut whole front h request read → (answer_of request pod key).status ≡ 200
        → reply_to read (Some other) other_key ≡ refused 400 }
    ensures gone { (whole front : List ℕ) (h : RequestHead) (request : Request) (read : Option Request)
        (pod : Option ViewData) (key other_key : List ℕ)
        → IsCut whole front h request read → (answer_of request pod key).status ≡ 200
        → length (print_request h) ≤ length front → reply_to read None other_key ≡ refused 404 }
    // these two whatever the whole is answered with
    ensures head { (whole front : List ℕ) (h : RequestHead) (request : Request) (read : Option Request)
        → IsCut whole front h request read → length front < length (print_request h)
        → read ≡ None }
    ensures body { (whole front : List ℕ) (h : RequestHead) (request : Request) (read : Option Request)
        → IsCut whole front h request read → length (print_request h) ≤ length front
        → read ≡ Some (with_bad_body request) }
{}
