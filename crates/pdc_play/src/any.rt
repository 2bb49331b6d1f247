//! Settings of either kind.
ghost use Rattle.std.specs.Prelude.{◌≡◌, IfErr, IfOk, IsErrOf, IsSomeAnd};
ghost use Rattle.toml.specs.Parse.{parse_document};
ghost use Rattle.pdc_settings.specs.Settings.{IsFaultOf};
ghost use Rattle.pdc_settings.specs.Wanting.{IsTomlWant};
ghost use Rattle.pdc_play.specs.Roles.{IsAnyFault, IsAnySettings, roles_of};

use pdc_settings::{Document, MergerSettings, NodeSettings, SettingsFault};
use std::alloc::Global;

/// The settings of a node or of the merger.
#[derive(Debug, Drop)]
pub enum AnySettings {
    /// Of a node.
    Node(NodeSettings),
    /// Of the merger.
    Merger(MergerSettings),
}

/// The settings of two nodes and of the merger.
#[derive(Debug, Drop)]
pub struct Roles {
    /// Of node A.
    pub a: NodeSettings,
    /// Of node B.
    pub b: NodeSettings,
    /// Of the merger.
    pub m: MergerSettings,
}

/// The settings that a text is: those of the merger where it has the key `node`, else those of a node.
///
/// # Errors
///
/// Why it is none of its kind; `NoMemory` where `toml` answered that memory was wanted.
pub fn read_settings(alloc: Global, text: &str) -> Result<AnySettings, SettingsFault>
    ensures value { IfOk result (λ settings. IsSomeAnd (parse_document text.now)
        (λ members. IsAnySettings members settings)) }
    ensures fault { IfErr result (IsFaultOf IsAnyFault text.now) }
    ensures wanted { IsErrOf result SettingsFault.NoMemory → IsTomlWant text.now }
{
    let document = Document::parse(alloc, text)?;
    if document.is_merger() {
        Ok(AnySettings::Merger(MergerSettings::from_document(&document)?))
    } else {
        Ok(AnySettings::Node(NodeSettings::from_document(&document)?))
    }
}

/// Two nodes and a merger, where the three are these in this order.
pub fn roles_of_three(a: AnySettings, b: AnySettings, m: AnySettings) -> Option<Roles>
    ensures { result ≡ roles_of a b m }
{
    match (a, b, m) {
        (AnySettings::Node(a), AnySettings::Node(b), AnySettings::Merger(m)) => {
            Some(Roles { a, b, m })
        }
        _ => None,
    }
}
