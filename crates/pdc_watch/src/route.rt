//! What a request asks for.
ghost use Rattle.std.specs.Prelude.{◌≡◌, ◌⊎◌, ◌↔◌, codes};
ghost use Rattle.pdc_watch.specs.declared.route.Resource.TheVariants.{Page, Style, Script, Data};
ghost use Rattle.pdc_watch.specs.declared.route.Resource.TheVariants.{Unknown, WrongMethod};

/// What a request asks for.
#[derive(Clone, Copy, PartialEq, Eq)]
pub enum Resource {
    /// `/`
    Page,
    /// `/watch.css`
    Style,
    /// `/watch.js`
    Script,
    /// `/data.json`
    Data,
    /// Another path.
    Unknown,
    /// One of these paths, with another method than GET and HEAD.
    WrongMethod,
}

/// What this method and this path ask for.
pub fn route_of(method: &str, path: &str) -> Resource
    ensures page { result ≡ Page → path.now ≡ codes "/" }
    ensures style { result ≡ Style → path.now ≡ codes "/watch.css" }
    ensures script { result ≡ Script → path.now ≡ codes "/watch.js" }
    ensures data { result ≡ Data → path.now ≡ codes "/data.json" }
    ensures method { (result ≡ Page) ⊎ (result ≡ Style) ⊎ (result ≡ Script) ⊎ (result ≡ Data) →
        (method.now ≡ codes "GET") ⊎ (method.now ≡ codes "HEAD") }
{
    let found = match path {
        "/" => Resource::Page,
        "/watch.css" => Resource::Style,
        "/watch.js" => Resource::Script,
        "/data.json" => Resource::Data,
        _ => return Resource::Unknown,
    };
    if method == "GET" || method == "HEAD" {
        found
    } else {
        Resource::WrongMethod
    }
}
