//! A text of settings as a TOML document.
ghost use Rattle.std.specs.Prelude.{◌≡◌, IfOk, IfErr, IsErrOf, OnErr};
ghost use Rattle.toml.specs.View.{table_view};
ghost use Rattle.pdc_keys.specs.Wanting.{IsWantOfKeys};
ghost use Rattle.pdc_settings.specs.Document.{AreUnknown, IsDocumentOf, members_of};
ghost use Rattle.pdc_settings.specs.Kind.{IsNoDocument, is_merger};
ghost use Rattle.pdc_settings.specs.Wanting.{IsTomlWant};

use crate::fault::SettingsFault;
use pdc_keys::{UnknownKey, Wanted, unknown_keys_in, value_at};
use std::alloc::{AllocError, Global};
use toml::Table;

/// A text of settings as a TOML document. A text is parsed once, and all that it says is read out of this.
#[derive(Drop)]
pub struct Document {
    /// Its keys and tables.
    pub table: Table,
}

/// Whether the settings are a merger's.
pub(crate) fn is_merger(table: &Table) -> bool
    ensures { result ≡ is_merger (table_view table.now) }
{
    match value_at(table, Wanted::Nodes) {
        Some(_) => true,
        None => false,
    }
}

impl Document {
    /// The document that a text is.
    ///
    /// # Errors
    ///
    /// `Toml` where the text is no TOML; `NoMemory` where `toml` answered that memory was wanted.
    #[tactic(auto, unfolding(crate::specs::Wanting::TomlWanted))]
    pub fn parse(alloc: Global, text: &str) -> Result<Document, SettingsFault>
        ensures found { IfOk result (IsDocumentOf text.now) }
        ensures fault { IfErr result (IsNoDocument text.now) }
        ensures wanted { IsErrOf result SettingsFault.NoMemory → IsTomlWant text.now }
    {
        match toml::table_from_str(alloc, text) {
            Ok(table) => Ok(Document { table }),
            Err(error) => {
                if error.is_memory() {
                    return Err(SettingsFault::NoMemory);
                }
                Err(SettingsFault::Toml)
            }
        }
    }

    /// Whether it is the settings of the merger, which it is by the key `node`. Any other document is a node's.
    pub fn is_merger(&self) -> bool
        ensures { result ≡ is_merger (members_of self.now) }
    {
        is_merger(&self.table)
    }

    /// Its keys that nothing reads: those at its top, then those of the tables of nodes, then of PMUs; in each in the order of their
    /// letters.
    ///
    /// # Errors
    ///
    /// A request for memory was refused, or `strsim` answered so.
    pub fn unknown_keys(&self, alloc: Global) -> Result<Vec<UnknownKey>, AllocError>
        ensures found { IfOk result (λ found. AreUnknown (members_of self.now) found.items) }
        ensures wanted { OnErr result IsWantOfKeys }
    {
        unknown_keys_in(alloc, &self.table)
    }
}
