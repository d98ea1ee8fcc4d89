// The static library of `codes`: the checks of BIC, IBAN and TxId, and the groups of an IBAN's check, for C (include/zolfigar.h). Each is
// the library's function of that name, with its clauses.
#![tactic(auto)]

ghost use Rattle.std.specs.Prelude.{◌≡◌};
ghost use Rattle.classes.specs.CheckAnswer.{answer};
ghost use Rattle.iban.specs.Iban.{is_iban};
ghost use Rattle.iban.specs.Groups.{iban_groups};
ghost use Rattle.codes.specs.Bic.{is_bic};
ghost use Rattle.codes.specs.Txid.{is_txid};

#[unsafe(no_mangle)]
pub extern "C" fn zolfigar_bic_ok(s: &[u8]) -> u8
    ensures { result ≡ answer (is_bic s.now) }
{
    codes::zolfigar_bic_ok(s)
}

#[unsafe(no_mangle)]
pub extern "C" fn zolfigar_iban_ok(s: &[u8]) -> u8
    ensures { result ≡ answer (is_iban s.now) }
{
    codes::zolfigar_iban_ok(s)
}

#[unsafe(no_mangle)]
pub extern "C" fn zolfigar_iban_groups(s: &[u8]) -> u8
    ensures { result ≡ iban_groups s.now }
{
    codes::zolfigar_iban_groups(s)
}

#[unsafe(no_mangle)]
pub extern "C" fn zolfigar_txid_ok(s: &[u8]) -> u8
    ensures { result ≡ answer (is_txid s.now) }
{
    codes::zolfigar_txid_ok(s)
}
