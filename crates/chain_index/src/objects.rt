//! Published objects, in order, found by their ids.
ghost use Rattle.std.specs.Prelude.{◌≡◌, ◌++◌, ◌∷◌, [], None, OnOk, OnErr, option_copied};
ghost use Rattle.std.specs.Map.{lookup, values_of};
ghost use Rattle.ledger_spec.specs.EutxoTypes.Parts.{same_bytes};
ghost use Rattle.ledger_spec.specs.Replay.{published_at};
ghost use Rattle.chain_index.specs.PartsSupport.{AreNamed};

use indexmap::IndexMap;
use ledger_spec::{Memory, Published, Shared};
use std::alloc::AllocError;

pub(crate) type Objects = IndexMap<[u8; 32], Shared<Published>>;

/// What is published under an id.
#[tactic(auto, using(crate::proofs::ObjectLemmas::found_named))]
pub(crate) fn object_at<'a>(objects: &'a Objects, id: &[u8; 32]) -> Option<&'a Shared<Published>>
    requires { AreNamed objects.now.entries }
    ensures { option_copied result ≡ published_at (values_of objects.now.entries) id.now }
{
    objects.get(id)
}

/// Adds an object, under whose id there is none yet. A refusal for memory changes nothing.
pub(crate) fn put_object(objects: &mut Objects, object: Shared<Published>) -> Result<(), Memory>
    requires named { AreNamed objects.old.entries }
    requires new { published_at (values_of objects.old.entries) object.id ≡ None }
    ensures ok { OnOk result (objects.new.entries ≡ objects.old.entries ++ (object.id, object) ∷ []) }
    ensures err { OnErr result (objects.new.entries ≡ objects.old.entries) }
    ensures still { AreNamed objects.new.entries }
{
    let id = object.get().id;
    match objects.insert(id, object) {
        Ok(_) => Ok(()),
        Err(_) => Err(AllocError),
    }
}
