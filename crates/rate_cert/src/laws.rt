//! What certificates show of every list of requests. These functions do nothing: their contracts are
//! the laws.

ghost use Rattle.std.specs.Prelude.{List};
ghost use Rattle.rate_cert.specs.declared.request.Request.{Request as RateRequest};
ghost use Rattle.rate_cert.specs.declared.certificate.Cert.{Cert as Certificate};
ghost use Rattle.rate_cert.specs.Choice.{IsChoice, IsSmallest};
ghost use Rattle.rate_cert.specs.Certificate.{IsCertified, kept_places};

/// If a certificate holds, its kept places are a choice of requests, and a smallest one: each kept pair
/// has to be forbidden by a member of any faithful choice, and no member forbids two of these.
pub fn certified_is_smallest()
    ensures choice { (requests : List RateRequest) (cert : Certificate) → IsCertified requests cert
        → IsChoice requests (kept_places cert) }
    ensures smallest { (requests : List RateRequest) (cert : Certificate)
        → IsCertified requests cert → IsSmallest requests (kept_places cert) }
{}
